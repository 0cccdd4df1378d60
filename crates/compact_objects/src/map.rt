// A map as it is written.
ghost use Rattle.std.specs.Prelude.{◌≡◌, Ok, Some, IfSome, option_map};
ghost use Rattle.serde_json.specs.Data.{Members, object};
ghost use Rattle.serde_json.specs.Find.{get_member};
ghost use Rattle.serde_json.specs.Written.{compact_text};
ghost use Rattle.compact.specs.Notes.{AreEntries};
ghost use Rattle.objects.specs.Reading.{optional_text};
ghost use Rattle.objects.specs.declared.fault.ReadError.{ReadError};
ghost use Rattle.compact_objects.specs.Maps.{IsMap};

use crate::text::text_of;
use compact::Table;

/// The text of a map, and the table of its members.
#[derive(Clone, Copy, Drop)]
pub struct Map<'t> {
    pub text: &'t [u8],
    pub table: &'t Table,
}

impl<'t> Map<'t> {
    /// The value of the member of that name, as it is written.
    #[inline(always)]
    pub(crate) fn member(self, name: &str) -> Option<&'t [u8]>
        ensures { (ms : Members) → IsMap self.entry.text.now self.entry.table.now ms
            → option_map (λ v. v.now) result ≡ option_map compact_text (get_member name.now ms) }
    {
        self.table.find(self.text, name.as_bytes())
    }

    /// The text of the member of that name, if there is one.
    pub(crate) fn optional_text(self, name: &str) -> Option<Option<&'t str>>
        ensures { (ms : Members) (e : ReadError) → IsMap self.entry.text.now self.entry.table.now ms
            → IfSome result (λ found. optional_text e (get_member name.now ms) ≡ Ok (option_map (λ t. t.now) found)) }
    {
        match self.member(name) {
            None => Some(None),
            Some(value) => Some(Some(text_of(value)?)),
        }
    }

    /// The member of that name, if it is a map; its table is given.
    pub(crate) fn map_member(self, name: &str, table: &'t Table) -> Option<Map<'t>>
        ensures { (ms : Members) → IsMap self.entry.text.now self.entry.table.now ms
            → ((os : Members) → get_member name.now ms ≡ Some (object os) → AreEntries table.now os)
            → IfSome result (λ m. (os : Members) × (get_member name.now ms ≡ Some (object os)) × IsMap m.text.now m.table.now os) }
    {
        let text = self.member(name)?;
        let _members = text.strip_prefix(b"{")?;
        Some(Map { text, table })
    }
}
