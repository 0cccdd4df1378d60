// The number that a token of JSON writes.
ghost use Rattle.std.specs.Prelude.{◌≡◌, ◌==◌, ◌<◌, option_map, length, slice_index, IsTrue, false, true};
ghost use Rattle.serde_json.specs.Find.{of_integer};
ghost use Rattle.serde_json.specs.Read.{number_of, number_from, float_of};
ghost use Rattle.trees.specs.Steps.{Gives, required};
ghost use Rattle.trees.specs.Integral.{number_if_integer};
ghost use Rattle.trees.specs.declared.fault.TreeError.TheVariants.{NotJson};

use crate::fault::TreeError;
use crate::integer::Integer;
use fast_float::Numeral;

/// The number of a token, or `None` if it is no integer. A number beyond the range of a double is refused with NotJson.
#[inline]
pub(crate) fn number_in(text: &str) -> Result<Option<Integer>, TreeError>
    ensures { Gives (option_map of_integer) result
        (required NotJson (option_map number_if_integer (number_of text.now))) }
{
    let bytes = text.as_bytes();
    if has_minus(bytes) {
        number_below(&Numeral::scan(&bytes[1..]))
    } else {
        count_in(&Numeral::scan(bytes))
    }
}

fn has_minus(bytes: &[u8]) -> bool
    ensures value { result ≡ (slice_index bytes.now 0 == 45) }
    ensures some { IsTrue result → 0 < length bytes.now }
{
    !bytes.is_empty() && bytes[0] == b'-'
}

fn count_in(numeral: &Numeral<'_>) -> Result<Option<Integer>, TreeError>
    ensures { Gives (option_map of_integer) result
        (required NotJson (option_map number_if_integer (number_from false numeral.now))) }
{
    match numeral.to_u64() {
        Some(count) => Ok(Some(Integer::from(count))),
        None => not_integral(false, numeral),
    }
}

fn number_below(numeral: &Numeral<'_>) -> Result<Option<Integer>, TreeError>
    ensures { Gives (option_map of_integer) result
        (required NotJson (option_map number_if_integer (number_from true numeral.now))) }
{
    if let Some(number) = numeral.to_i64(true) {
        if number < 0 {
            return Ok(Some(Integer::from(number)));
        }
    }
    not_integral(true, numeral)
}

fn not_integral(negative: bool, numeral: &Numeral<'_>) -> Result<Option<Integer>, TreeError>
    ensures { Gives (option_map of_integer) result
        (required NotJson (option_map number_if_integer (float_of negative numeral.now))) }
{
    if numeral.to_float::<f64>(negative).is_finite() {
        Ok(None)
    } else {
        Err(TreeError::NotJson)
    }
}
