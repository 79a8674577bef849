//! Memory for the tasks of a seat, one after the other.

ghost use Rattle.std.specs.Prelude.{◌≡◌};
ghost use Rattle.tw_rights.specs.Filed.{filed, rights_in};

use crate::context::Context;
use crate::job_buffer::FreeJobBuffer;
use std::alloc::{AllocError, AllocFailed, Global};
use std::marker::Model;
use tw_rights::{Bundle, RightFile};

/// Two contexts that go with a job, for its run: the resulting one, and a copy of it for the next job.
#[derive(Drop)]
pub(crate) struct ScratchContexts<'a> {
    pub(crate) after: Box<Context<'a>>,
    pub(crate) again: Box<Context<'a>>,
}

/// Empty right registers, for the next task.
pub(crate) struct EmptyFile {
    file: Box<RightFile>,
}

impl Model for EmptyFile {
    ghost use Rattle.std.specs.Prelude.{◌≡◌, []};
    ghost use Rattle.tw_rights.specs.Filed.{filed};

    ghost Value = { Unit {0} };

    ghost view = { λ empty. tt };

    ghost invariant = { λ empty. empty.file.value ≡ filed [] };
}

impl EmptyFile {
    /// Allocates empty right registers for a task.
    fn new(alloc: Global) -> Result<EmptyFile, AllocError> {
        match Box::new(alloc, RightFile::new()) {
            Ok(file) => Ok(EmptyFile { file }),
            Err(refused) => {
                let AllocFailed { value } = refused;
                value.shut();
                Err(AllocError)
            }
        }
    }

    /// Spends the rights in right registers, which are kept for the next task.
    pub(crate) fn of(mut file: Box<RightFile>) -> EmptyFile {
        file.spend_all();
        EmptyFile { file }
    }

    /// Fills empty right registers for a task that starts with these arguments.
    pub(crate) fn fill(self, args: Bundle) -> Box<RightFile>
        ensures { result.value ≡ filed (rights_in args) }
    {
        let EmptyFile { mut file } = self;
        args.fill(&mut file);
        file
    }

    /// Frees the memory of empty right registers.
    pub(crate) fn shut(self) {
        let EmptyFile { file } = self;
        Box::into_inner(file).shut();
    }
}

/// Memory for a task's contexts and rights: the context of its frame, that of its job, and two that the job's run fills. What
/// an earlier task left in the contexts has no meaning.
pub struct FrameBuffers<'a> {
    pub(crate) own: Box<Context<'a>>,
    pub(crate) lent: Box<Context<'a>>,
    pub(crate) scratch: ScratchContexts<'a>,
    pub(crate) job_buffer: FreeJobBuffer<'a>,
    pub(crate) rights: EmptyFile,
}

impl<'a> Model for FrameBuffers<'a> {
    ghost Value = { Unit {0} };

    ghost view = { λ r. tt };
}

impl<'a> FrameBuffers<'a> {
    /// Allocates the memory of contexts, job and right registers for one task at a time.
    pub fn new(alloc: Global) -> Result<FrameBuffers<'a>, AllocError> {
        let own = Context::boxed(alloc)?;
        let lent = Context::boxed(alloc)?;
        let after = Context::boxed(alloc)?;
        let again = Context::boxed(alloc)?;
        let job_buffer = FreeJobBuffer::new(alloc)?;
        let rights = EmptyFile::new(alloc)?;
        Ok(FrameBuffers {
            own,
            lent,
            scratch: ScratchContexts { after, again },
            job_buffer,
            rights,
        })
    }

    /// Frees the memory of contexts, job and right registers for one task.
    pub fn shut(self) {
        let FrameBuffers {
            own: _,
            lent: _,
            scratch: _,
            job_buffer: _,
            rights,
        } = self;
        rights.shut();
    }

    /// Frees the memory of texts in a task's contexts. The other contexts of a task have none if its frame's has none.
    pub(crate) fn empty(&mut self, alloc: Global) {
        if self.own.registers.has_texts() {
            self.own.registers.empty(alloc);
            self.lent.registers.empty(alloc);
            self.scratch.after.registers.empty(alloc);
            self.scratch.again.registers.empty(alloc);
        }
    }
}
