//! Answers in a row, of which those that are the same are told once.

use crate::answers::{Answer, text};
use std::alloc::{AllocError, Global};

/// Answers in a row, each under a number.
#[derive(Drop)]
pub struct Runs {
    /// What is told of the answers before the last ones that are the same.
    told: String,
    /// The first and the last number of the last answers that are the same.
    last: Option<(u64, u64, Answer)>,
}

impl Runs {
    /// No answers.
    pub fn new(alloc: Global) -> Runs {
        Runs {
            told: String::new(alloc),
            last: None,
        }
    }

    /// Adds an answer.
    pub fn add(&mut self, alloc: Global, number: u64, answer: Answer) -> Result<(), AllocError> {
        if let Some((first, _, same)) = self.last {
            if same == answer {
                self.last = Some((first, number, answer));
                return Ok(());
            }
        }
        self.tell(alloc)?;
        self.last = Some((number, number, answer));
        Ok(())
    }

    /// Tells the last answers.
    fn tell(&mut self, alloc: Global) -> Result<(), AllocError> {
        if let Some((first, last, answer)) = self.last {
            let words = text(alloc, answer)?;
            let comma = if self.told.is_empty() { "" } else { ", " };
            let part = if first == last {
                format!(in alloc; "{comma}{first} {words}")?
            } else {
                format!(in alloc; "{comma}{first}-{last} {words}")?
            };
            self.told.push_str(part.as_str())?;
        }
        Ok(())
    }

    /// What is told of all answers.
    pub fn end(mut self, alloc: Global) -> Result<String, AllocError> {
        self.tell(alloc)?;
        Ok(self.told)
    }
}
