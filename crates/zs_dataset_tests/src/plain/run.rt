//! A scan in the course of an example.

use super::{are_at, fits, is_scan, scan, scrub};
use std::alloc::{AllocError, Global};
use zs_ids::Piece;
use zs_phys::{At, Phys, Scope, Step};
use zs_plain::ahead::covers;
use zs_plain::dataset::PlainDataset;
use zs_plain::sound::is_sound;
use zs_plain::turn::{PlainTurn, turn};

/// A scan.
#[derive(Drop)]
pub struct Run {
    /// Its scope.
    pub scope: Scope,
    /// Where it is.
    pub state: Phys,
    /// What is done.
    pub done: Vec<Piece>,
}

impl Run {
    /// A scrub that has just started, of what was born before a transaction group.
    pub fn new(alloc: Global, max: u64) -> Result<Run, AllocError> {
        let state = scan(alloc, At::Nowhere, (0, 0, false), &[(0, 0)])?;
        Ok(Run {
            scope: scrub(alloc, max),
            state,
            done: Vec::new(alloc),
        })
    }

    /// One more, up to the same group, that is where this one is and has done the same.
    pub fn copy(&self, alloc: Global) -> Result<Run, AllocError> {
        let mut run = Run::new(alloc, self.scope.max)?;
        run.state.copy_from(&self.state);
        run.done.extend_from_slice(&self.done)?;
        Ok(run)
    }

    /// Whether the graph is valid, and the state belongs to it and covers it, where h is the transaction group whose tasks
    /// come next.
    pub fn holds(&self, alloc: Global, g: &[PlainDataset], h: u64) -> Result<bool, AllocError> {
        let valid = fits(alloc, g, 64, h)?;
        let sound = is_sound(alloc, g, h, &self.scope, &self.state)?;
        let covers = covers(alloc, g, &self.scope, &self.state, &self.done)?;
        Ok(valid && (sound && covers))
    }

    /// Makes the next turn, and says which it was; none where there is none that can be made.
    fn turn(&mut self, alloc: Global, g: &[PlainDataset]) -> Result<Option<Step>, AllocError> {
        let made = turn(alloc, g, &self.scope, &self.state, &self.done)?;
        let Some(PlainTurn { step, state, put }) = made else {
            return Ok(None);
        };
        self.state = state;
        self.done.extend_from_slice(&put)?;
        Ok(Some(step))
    }

    /// Walks until there is nothing to walk, at most so many turns, and says how many it made; none where a state on the way
    /// does not hold.
    fn walk(
        &mut self,
        alloc: Global,
        g: &[PlainDataset],
        h: u64,
        most: u32,
    ) -> Result<Option<u32>, AllocError> {
        for turns in 0..most {
            if !self.holds(alloc, g, h)? {
                return Ok(None);
            }
            match self.turn(alloc, g)? {
                None => return Ok(None),
                Some(Step::Nothing) => return Ok(Some(turns)),
                Some(_) => {}
            }
        }
        let held = self.holds(alloc, g, h)?;
        Ok(if held { Some(most) } else { None })
    }

    /// Walks at most so many turns, and says whether each state held, it made so many, and what is done then is at these
    /// sectors.
    pub fn goes(
        &mut self,
        alloc: Global,
        g: &[PlainDataset],
        h: u64,
        turns: (u32, u32),
        done: &[u32],
    ) -> Result<bool, AllocError> {
        let made = self.walk(alloc, g, h, turns.0)?;
        Ok(made == Some(turns.1) && are_at(&self.done, done))
    }

    /// Whether it is there.
    pub fn is_at(&self, at: At, pass: (u64, u64, bool), todo: &[(u32, u64)]) -> bool {
        is_scan(&self.state, at, pass, todo)
    }
}
