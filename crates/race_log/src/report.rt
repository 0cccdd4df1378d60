ghost use Rattle.std.specs.Prelude.{◌≡◌, ◌++◌, ◌∷◌, [], codes, decimal, IfOk, OnOk};
ghost use Rattle.json.specs.Token.{begin_object, boolean, key, number};
ghost use Rattle.json.specs.Tree.{json_tokens};
ghost use Rattle.serde_json.specs.Written.{outline};
ghost use Rattle.race_log.specs.Report.{report_data, report_text};

use json::Writer;
use objects::Memory;
use plain::{end_line, write_integer_member};
use std::alloc::{AllocError, Global};

/// The result of a race.
#[derive(Clone, Copy, Debug, PartialEq, Eq)]
pub struct RaceReport {
    pub controllers: u64,
    /// Whether the order of the race is a legal order of its requests and replies.
    pub legal: bool,
    pub rounds: u64,
    pub shards: u64,
    /// How many pods were created while another one of that name lived, by the order of the race.
    pub twice: u64,
}

/// The line `{"controllers":N,"legal":B,"rounds":N,"shards":N,"twice":N}`.
pub fn report_line(alloc: Global, report: &RaceReport) -> Result<Vec<u8>, Memory>
    ensures { IfOk result (λ line. line.items ≡ report_text report.now) }
{
    Ok(line_of(alloc, report)?)
}

fn line_of(alloc: Global, report: &RaceReport) -> Result<Vec<u8>, AllocError>
    ensures { IfOk result (λ line. line.items ≡ report_text report.now) }
{
    let mut writer = Writer::new(Vec::new(alloc));
    write_report(report, &mut writer)?;
    end_line(writer)
}

fn write_report(report: &RaceReport, out: &mut Writer) -> Result<(), AllocError>
    ensures tokens { OnOk result (out.new.tokens ≡ out.old.tokens ++ json_tokens (outline (report_data report.now))) }
    ensures before { out.new.before ≡ out.old.before }
{
    write_first(report, out)?;
    write_integer_member("rounds", report.rounds, out)?;
    write_integer_member("shards", report.shards, out)?;
    write_integer_member("twice", report.twice, out)?;
    out.end_object()
}

fn write_first(report: &RaceReport, out: &mut Writer) -> Result<(), AllocError>
    ensures tokens { OnOk result (out.new.tokens ≡ out.old.tokens
        ++ begin_object ∷ key (codes "controllers") ∷ number (decimal report.now.controllers) ∷ key (codes "legal") ∷ boolean report.now.legal ∷ []) }
    ensures before { out.new.before ≡ out.old.before }
{
    out.begin_object()?;
    write_integer_member("controllers", report.controllers, out)?;
    out.key("legal")?;
    out.boolean(report.legal)
}
