//! The frames that wait at one worker.
ghost use Rattle.std.specs.Prelude.{◌≡◌, ◌==◌, length, ◌∷◌, ◌++◌, [], drop, slice_get, option_map, OnOk, OnErr};
ghost use Rattle.pcap_file.specs.Format.{packet};

use pcap_file::Frame;
use std::alloc::{AllocError, Global};
use std::collections::VecDeque;
use std::marker::Model;
use std::rc::Rc;

// A worker's queue, the first frame in front.
#[derive(Drop)]
pub(crate) struct Queue {
    frames: VecDeque<Rc<Frame>>,
}

impl Model for Queue {
    ghost use Rattle.std.specs.Prelude.{List, map};
    ghost use Rattle.pcap_file.specs.Format.{Record, packet};

    ghost Value = { List Record };

    ghost view = { λ q. map (λ f. packet f.value) q.frames.items };
}

impl Queue {
    pub(crate) fn new(alloc: Global) -> Self
        ensures { result ≡ [] }
    {
        Queue {
            frames: VecDeque::new(alloc),
        }
    }

    // Puts a frame at the end.
    #[inline(always)]
    pub(crate) fn put(&mut self, frame: Rc<Frame>) -> Result<(), AllocError>
        ensures ok { OnOk result (self.new ≡ self.old ++ packet frame.value ∷ []) }
        ensures err { OnErr result (self.new ≡ self.old) }
    {
        self.frames.push_back(frame)?;
        Ok(())
    }

    // Takes the first frame.
    #[inline(always)]
    pub(crate) fn take(&mut self) -> Option<Rc<Frame>>
        ensures taken { option_map (λ f. packet f.value) result ≡ slice_get self.old 0 }
        ensures after { self.new ≡ drop 1 self.old }
    {
        self.frames.pop_front()
    }

    // Whether no frame waits.
    #[inline(always)]
    pub(crate) fn is_empty(&self) -> bool
        ensures { result ≡ (length self.now == 0) }
    {
        self.frames.is_empty()
    }

    // Lets all frames go, and keeps the queue's room.
    pub(crate) fn clear(&mut self)
        ensures { self.new ≡ [] }
    {
        self.frames.clear();
    }
}
