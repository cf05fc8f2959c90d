//! Numbers of the workers of each node.
ghost use Rattle.std.specs.Prelude.{◌≡◌, ◌≤◌, ◌==◌, ◌&&◌, ℕ, IfOk, OnOk, length, max, if◌then◌else◌};
ghost use Rattle.connection_changes.specs.Books.{worker_number};

use crate::numbers::Numbers;
use std::alloc::{AllocError, Global};

/// A number of each worker of each node. Where none was put it is 0.
#[derive(Drop)]
pub(crate) struct WorkerNumbers {
    alloc: Global,
    nodes: Vec<Numbers>,
}

impl WorkerNumbers {
    /// None was put.
    pub(crate) fn new(alloc: Global) -> WorkerNumbers
        ensures { (n w : ℕ) → worker_number result n w ≡ 0 }
    {
        WorkerNumbers {
            alloc,
            nodes: Vec::new(alloc),
        }
    }

    // Makes room for so many nodes.
    fn reach(&mut self, len: usize) -> Result<(), AllocError>
        ensures room { OnOk result (len ≤ length self.new.nodes.items) }
        ensures same { OnOk result ((n w : ℕ) → worker_number self.new n w ≡ worker_number self.old n w) }
    {
        for _ in self.nodes.len()..len {
            let Ok(()) = self.nodes.push(Numbers::new(self.alloc)) else {
                return Err(AllocError);
            };
        }
        Ok(())
    }

    /// Raises the number of a node's worker to this one where it is lower. The answer is the worker's number then.
    #[inline(always)]
    pub(crate) fn raise(&mut self, node: u16, worker: u16, number: u64) -> Result<u64, AllocError>
        ensures value { IfOk result (λ m. m ≡ max (worker_number self.old node worker) number) }
        ensures numbers { OnOk result ((n w : ℕ) → worker_number self.new n w ≡
            (if node == n && worker == w then max (worker_number self.old node worker) number else worker_number self.old n w)) }
    {
        let at = usize::from(node);
        if at >= self.nodes.len() {
            self.reach(at + 1)?;
        }
        self.nodes[at].raise(u32::from(worker), number)
    }

    /// Forgets the numbers of a node's workers.
    pub(crate) fn forget(&mut self, node: u16)
        ensures { (n w : ℕ) → worker_number self.new n w ≡ (if node == n then 0 else worker_number self.old n w) }
    {
        let at = usize::from(node);
        if at < self.nodes.len() {
            self.nodes[at] = Numbers::new(self.alloc);
        }
    }
}
