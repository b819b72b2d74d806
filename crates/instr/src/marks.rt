// The label table of a unit: for each label, by its number, a mark that says where it lands.
ghost use Rattle.std.specs.Prelude.{◌≡◌, get_or};
ghost use Rattle.definitions.specs.Code.{unmarked};

/// The mark of a label that lands nowhere.
pub const UNMARKED: u32 = u32::MAX;

/// The mark of a label: the offset where it lands, in units of virtual size. A label outside the table is unmarked.
#[tactic(auto, using(crate::proofs::TableLaws::marked_as), unfolding(definitions::specs::Code::unmarked))]
pub fn mark_of(marks: &[u32], label: u16) -> u32
    ensures { result ≡ get_or marks.now label unmarked }
{
    marks.get(usize::from(label)).copied().unwrap_or(UNMARKED)
}
