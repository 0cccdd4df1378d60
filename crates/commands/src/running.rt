//! Commands that run the script in their input.
ghost use Rattle.std.specs.Prelude.{◌≡◌, false, IfOk, IfErr, IfSome};
ghost use Rattle.commands.specs.Halts.{is_read, name_of, told_line};
ghost use Rattle.commands.specs.Running.{IsScriptRefusal};
ghost use Rattle.scripts.specs.Events.{Fails};

use crate::answering::Answer;
use crate::args::ScriptWords;
use crate::halt::{Halt, halt_at};
use crate::options::OutputFormat;
use objects::Memory;
use pictures::Shown;
use scripts::ScriptError;
use std::alloc::Global;
use std::marker::PhantomData;

/// A kind of script: how an input is read, and what is printed of a run in each form.
pub(crate) trait Runnable: Drop {
    ghost use Rattle.std.specs.Prelude.{◌≡◌, ℕ, List, Option, false, IfOk, IfErr, IfSome};
    ghost use Rattle.commands.specs.Halts.{is_read, name_of};
    ghost use Rattle.commands.specs.declared.options.OutputFormat.{OutputFormat};
    ghost use Rattle.scripts.specs.Events.{Reads};

    /// A script as definitions have it.
    ghost Parts: { Type 0 };

    ghost parts: { Self → Parts };
    /// The script in an input, if it is one.
    ghost script_of: { List ℕ → Option Parts };
    /// The number of the first line for which an input is none.
    ghost refused_line: { List ℕ → Option ℕ };
    /// Whether that text shows the run in that form.
    ghost is_shown: { OutputFormat → Self → List ℕ → Type 0 };
    /// Whether the run is refused by that name.
    ghost is_run_refusal: { Self → List ℕ → Type 0 };

    fn read(alloc: Global, input: &[u8]) -> Result<Self, ScriptError>
        ensures { Reads parts result (script_of input.now) };

    fn refused_line(alloc: Global, input: &[u8]) -> Result<Option<u64>, Memory>
        ensures { IfOk result (λ line. line ≡ refused_line input.now) };

    fn lines(&self, alloc: Global) -> Result<Vec<u8>, Halt>
        ensures shown { IfOk result (λ text. is_shown OutputFormat.Lines self.now text.items) }
        ensures refused { IfErr result (λ halt. IfSome (name_of halt) (is_run_refusal self.now)) }
        ensures read { IfErr result (λ halt. is_read halt ≡ false) };

    fn picture(&self, alloc: Global, shown: Shown) -> Result<Vec<u8>, Halt>
        ensures shown { IfOk result (λ text. is_shown (OutputFormat.Picture shown) self.now text.items) }
        ensures refused { IfErr result (λ halt. IfSome (name_of halt) (is_run_refusal self.now)) }
        ensures read { IfErr result (λ halt. is_read halt ≡ false) };

    fn writes(&self, alloc: Global) -> Result<Vec<u8>, Halt>
        ensures shown { IfOk result (λ text. is_shown OutputFormat.Writes self.now text.items) }
        ensures refused { IfErr result (λ halt. IfSome (name_of halt) (is_run_refusal self.now)) }
        ensures read { IfErr result (λ halt. is_read halt ≡ false) };

    fn trace(&self, alloc: Global) -> Result<Vec<u8>, Halt>
        ensures shown { IfOk result (λ text. is_shown OutputFormat.Trace self.now text.items) }
        ensures refused { IfErr result (λ halt. IfSome (name_of halt) (is_run_refusal self.now)) }
        ensures read { IfErr result (λ halt. is_read halt ≡ false) };
}

/// What is printed of the run of a script, in the requested form.
#[derive(Drop)]
pub(crate) struct Running<S> {
    pub(crate) asked: ScriptWords,
    pub(crate) of: PhantomData<S>,
}

impl<S: Runnable> Answer for Running<S> {
    ghost use Rattle.commands.specs.Running.{IsScriptRefusal, IsScriptText};

    ghost is_text = { λ word input text. IsScriptText S.script_of S.parts S.is_shown word.asked.form input text };

    ghost is_refusal = { λ word input name. IsScriptRefusal S.script_of S.parts S.refused_line S.is_run_refusal word.asked.shows_line input name };

    fn answer(&self, alloc: Global, input: &[u8]) -> Result<Vec<u8>, Halt> {
        let script = match S::read(alloc, input) {
            Ok(script) => script,
            Err(error) => return Err(no_script::<S>(alloc, self.asked.shows_line, error, input)),
        };
        text_of_run(alloc, self.asked.form, &script)
    }
}

/// Why an input that is no script has no output.
fn no_script<S: Runnable>(alloc: Global, shows_line: bool, error: ScriptError, input: &[u8]) -> Halt
    ensures read { is_read result ≡ false }
    ensures refused { Fails error (S.script_of input.now)
        → IfSome (name_of result) (IsScriptRefusal S.script_of S.parts S.refused_line S.is_run_refusal shows_line input.now) }
{
    match error {
        ScriptError::Memory => Halt::Memory,
        ScriptError::BadScript => match line_told::<S>(alloc, shows_line, input) {
            Ok(line) => halt_at("BadScript", line, ""),
            Err(Memory) => Halt::Memory,
        },
    }
}

/// The first line for which it is none, if it is to be named.
fn line_told<S: Runnable>(
    alloc: Global,
    shows_line: bool,
    input: &[u8],
) -> Result<Option<u64>, Memory>
    ensures { IfOk result (λ line. line ≡ told_line shows_line (S.refused_line input.now)) }
{
    if shows_line {
        S::refused_line(alloc, input)
    } else {
        Ok(None)
    }
}

fn text_of_run<S: Runnable>(alloc: Global, form: OutputFormat, script: &S) -> Result<Vec<u8>, Halt>
    ensures shown { IfOk result (λ text. S.is_shown form script.now text.items) }
    ensures refused { IfErr result (λ halt. IfSome (name_of halt) (S.is_run_refusal script.now)) }
    ensures read { IfErr result (λ halt. is_read halt ≡ false) }
{
    match form {
        OutputFormat::Lines => script.lines(alloc),
        OutputFormat::Picture(shown) => script.picture(alloc, shown),
        OutputFormat::Writes => script.writes(alloc),
        OutputFormat::Trace => script.trace(alloc),
    }
}
