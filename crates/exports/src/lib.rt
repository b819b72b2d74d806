// The functions of the static library, for C and Rust. Each takes any arguments, and answers true with what was made in three numbers,
// or false with number, place and extra of the refusal, which leaves every buffer as it was.
#![tactic(auto)]

ghost use Rattle.std.specs.Prelude.{◌≡◌, length};
ghost use Rattle.definitions.specs.Listing.{read_listing, view};
ghost use Rattle.definitions.specs.Resolve.{resolve};
ghost use Rattle.definitions.specs.Stage.{measure, lower_into, lower_to, resolve_to};
ghost use Rattle.definitions.specs.Stored.{store, restore};
ghost use Rattle.definitions.specs.Strip.{strip_into, strip_to};
ghost use Rattle.assemble.specs.Whole.{measuring};
ghost use Rattle.exports.specs.Numbers.{numbers, given, measured, lowered, out_of, marks_of, records_of, resolved, code_of, checked, viewed, stripped, stripped_of};

use instr::listings;
use instr::records::Record;
use instr::refusals::Refusal;
use steps::counters::Counters;

// The three numbers of what was made; one that is not named is 0.
#[derive(Clone, Copy, Debug, PartialEq, Eq)]
struct Made {
    first: usize,
    second: usize,
    third: usize,
}

// Writes an answer's three numbers through the pointers of C, which are three, and says whether something was made.
#[tactic(auto, unfolding(crate::specs::Numbers::given))]
fn give(
    answer: Result<Made, Refusal>,
    first: &mut usize,
    second: &mut usize,
    third: &mut usize,
) -> bool
    ensures { numbers result first.new second.new third.new ≡ given answer }
{
    match answer {
        Ok(made) => {
            *first = made.first;
            *second = made.second;
            *third = made.third;
            true
        }
        Err(q) => {
            *first = q.reason.number();
            *second = q.place;
            *third = q.extra;
            false
        }
    }
}

// Records, labels and total size of a unit.
#[tactic(auto, unfolding(crate::specs::Numbers::given, crate::specs::Numbers::measured, assemble::specs::Whole::measuring))]
fn totals(answer: Result<Counters, Refusal>) -> Result<Made, Refusal>
    ensures { given result ≡ measured (measuring answer) }
{
    let c = answer?;
    Ok(Made {
        first: c.count as usize,
        second: c.labels as usize,
        third: c.offset as usize,
    })
}

// How many there are: the records of a listing, the bytes of a unit.
#[tactic(auto, unfolding(crate::specs::Numbers::given, crate::specs::Numbers::records_of))]
fn count(answer: Result<usize, Refusal>) -> Result<Made, Refusal>
    ensures { given result ≡ records_of answer }
{
    let first = answer?;
    Ok(Made {
        first,
        second: 0,
        third: 0,
    })
}

// Where record n of a listing begins, and its length.
#[tactic(auto, using(crate::proofs::Answers::viewed_made, crate::proofs::Answers::viewed_refused, crate::proofs::Answers::viewed_fits), unfolding(crate::specs::Numbers::given))]
fn place(listing: &[u8], n: usize) -> Result<Made, Refusal>
    ensures { given result ≡ viewed n (view listing.now n) }
{
    listings::view_check(listing, n)?;
    Ok(Made {
        first: listings::FRONT + Record::LENGTH * n,
        second: Record::LENGTH,
        third: 0,
    })
}

// What a unit takes: records, labels, total size.
#[unsafe(no_mangle)]
pub extern "C" fn delzhomo_measure(
    unit: &[u8],
    first: &mut usize,
    second: &mut usize,
    third: &mut usize,
) -> bool
    ensures { numbers result first.new second.new third.new ≡ measured (measure unit.now) }
{
    give(totals(assemble::measure(unit)), first, second, third)
}

// The labelled listing of a unit and its label table: records, labels, total size.
#[tactic(auto, using(crate::proofs::Answers::lowered_as))]
#[unsafe(no_mangle)]
pub extern "C" fn delzhomo_lower(
    unit: &[u8],
    out: &mut [u8],
    marks: &mut [u32],
    first: &mut usize,
    second: &mut usize,
    third: &mut usize,
) -> bool
    ensures third_after { numbers result first.new second.new third.new ≡ lowered (lower_to (lower_into unit.now (length out.old) (length marks.old)) out.old marks.old) }
    ensures out_after { out.new ≡ out_of (lower_to (lower_into unit.now (length out.old) (length marks.old)) out.old marks.old) }
    ensures marks_after { marks.new ≡ marks_of (lower_to (lower_into unit.now (length out.old) (length marks.old)) out.old marks.old) }
{
    let lowered = totals(assemble::lower(unit, out, marks));
    give(lowered, first, second, third)
}

// The listing with distances in place of its labels: records.
#[tactic(auto, using(crate::proofs::Answers::resolved_as))]
#[unsafe(no_mangle)]
pub extern "C" fn delzhomo_resolve(
    listing: &[u8],
    marks: &[u32],
    out: &mut [u8],
    first: &mut usize,
    second: &mut usize,
    third: &mut usize,
) -> bool
    ensures third_after { numbers result first.new second.new third.new ≡ resolved (resolve_to (resolve listing.now marks.now (length out.old)) out.old) }
    ensures out_after { out.new ≡ code_of (resolve_to (resolve listing.now marks.now (length out.old)) out.old) }
{
    let resolved = count(resolve::resolve(listing, marks, out));
    give(resolved, first, second, third)
}

// Whether a slice is a listing: its records.
#[tactic(auto, using(crate::proofs::Answers::checked_as))]
#[unsafe(no_mangle)]
pub extern "C" fn delzhomo_check(
    listing: &[u8],
    first: &mut usize,
    second: &mut usize,
    third: &mut usize,
) -> bool
    ensures { numbers result first.new second.new third.new ≡ checked (read_listing listing.now) }
{
    give(
        count(listings::check_listing(listing)),
        first,
        second,
        third,
    )
}

// Where record n of a listing begins, and its length.
#[unsafe(no_mangle)]
pub extern "C" fn delzhomo_view(
    listing: &[u8],
    n: usize,
    first: &mut usize,
    second: &mut usize,
    third: &mut usize,
) -> bool
    ensures { numbers result first.new second.new third.new ≡ viewed n (view listing.now n) }
{
    give(place(listing, n), first, second, third)
}

// The unit without its pool indices, lines and constants: the bytes written.
#[tactic(auto, using(crate::proofs::Answers::stripped_as))]
#[unsafe(no_mangle)]
pub extern "C" fn delzhomo_strip(
    unit: &[u8],
    out: &mut [u8],
    first: &mut usize,
    second: &mut usize,
    third: &mut usize,
) -> bool
    ensures third_after { numbers result first.new second.new third.new ≡ stripped (strip_to (strip_into unit.now (length out.old)) out.old) }
    ensures out_after { out.new ≡ stripped_of (strip_to (strip_into unit.now (length out.old)) out.old) }
{
    give(count(strip::strip(unit, out)), first, second, third)
}

// What the loader stores of a resolved listing: records.
#[tactic(auto, using(crate::proofs::Answers::resolved_as))]
#[unsafe(no_mangle)]
pub extern "C" fn delzhomo_store(
    listing: &[u8],
    out: &mut [u8],
    first: &mut usize,
    second: &mut usize,
    third: &mut usize,
) -> bool
    ensures third_after { numbers result first.new second.new third.new ≡ resolved (resolve_to (store listing.now (length out.old)) out.old) }
    ensures out_after { out.new ≡ code_of (resolve_to (store listing.now (length out.old)) out.old) }
{
    give(count(store::store(listing, out)), first, second, third)
}

// The resolved listing of what the loader stores: records.
#[tactic(auto, using(crate::proofs::Answers::resolved_as))]
#[unsafe(no_mangle)]
pub extern "C" fn delzhomo_restore(
    listing: &[u8],
    out: &mut [u8],
    first: &mut usize,
    second: &mut usize,
    third: &mut usize,
) -> bool
    ensures third_after { numbers result first.new second.new third.new ≡ resolved (resolve_to (restore listing.now (length out.old)) out.old) }
    ensures out_after { out.new ≡ code_of (resolve_to (restore listing.now (length out.old)) out.old) }
{
    give(count(store::restore(listing, out)), first, second, third)
}
