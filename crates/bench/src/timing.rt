// How long loads took.
use anyhow::Result;
use std::time::Duration;

/// Prints how long a load took, and how many of the `count` things that is in a second.
pub(crate) fn report(rt: &impl Eprint, load: &str, count: u64, elapsed: Duration) -> Result<()> {
    let rate = u128::from(count).saturating_mul(1_000_000) / elapsed.as_micros().max(1);
    eprintln!(rt; "{load}: {elapsed:?}, {rate} a second")?;
    Ok(())
}
