//! `stsctl replay`.
use crate::halt::Halt;
use crate::running::Runnable;
use history::replay;
use objects::Memory;
use pictures::{NoRoles, Shown, picture, story};
use scripts::{Script, ScriptError, read_script, refused_line, run_text};
use std::alloc::Global;
use traces::trace_lines;

impl Runnable for Script {
    ghost use Rattle.interleavings.specs.World.{Size};
    ghost use Rattle.interleavings.specs.declared.event.Event.{Event};
    ghost use Rattle.std.specs.Prelude.{List};
    ghost use Rattle.commands.specs.Replaying.{IsRunRefusal, IsShownText};
    ghost use Rattle.scripts.specs.Refusals.{refused_line_of};
    ghost use Rattle.scripts.specs.Scripts.{parts_of, script_of};

    ghost Parts = { Size × List Event };

    ghost parts = { parts_of };

    ghost script_of = { script_of };

    ghost refused_line = { refused_line_of };

    ghost is_shown = { λ form script. IsShownText form (parts_of script) };

    ghost is_run_refusal = { λ script. IsRunRefusal (parts_of script) };

    fn read(alloc: Global, input: &[u8]) -> Result<Script, ScriptError> {
        read_script(alloc, input)
    }

    fn refused_line(alloc: Global, input: &[u8]) -> Result<Option<u64>, Memory> {
        refused_line(alloc, input)
    }

    fn lines(&self, alloc: Global) -> Result<Vec<u8>, Halt> {
        let shards = self.shards as usize;
        let run = replay(alloc, shards, self.capacity, self.events.as_slice())?;
        let text = run_text(alloc, &run);
        drop(run);
        Ok(text?)
    }

    fn picture(&self, alloc: Global, shown: Shown) -> Result<Vec<u8>, Halt> {
        let shards = self.shards as usize;
        let events = self.events.as_slice();
        Ok(picture(alloc, shards, self.capacity, events, &NoRoles, shown)?)
    }

    fn writes(&self, alloc: Global) -> Result<Vec<u8>, Halt> {
        let shards = self.shards as usize;
        let events = self.events.as_slice();
        Ok(story(alloc, shards, self.capacity, events, &NoRoles)?)
    }

    fn trace(&self, alloc: Global) -> Result<Vec<u8>, Halt> {
        let shards = self.shards as usize;
        let events = self.events.as_slice();
        Ok(trace_lines(alloc, shards, self.capacity, events, &NoRoles)?)
    }
}
