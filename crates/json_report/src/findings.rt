//! The object of an audit's findings.

ghost use Rattle.std.specs.Prelude.{◌≡◌, ◌++◌, ◌∷◌, [], IfOk, codes};
ghost use Rattle.json.specs.Token.{begin_object, end_object};
ghost use Rattle.baf_auditor.specs.declared.finding.Finding.TheVariants as findings;
ghost use Rattle.grouping_report.specs.FindingsText.{fifteen_digits};
ghost use Rattle.json_report.specs.Parts.{Adds, number_member, text_member};
ghost use Rattle.json_report.specs.FindingsObject.{finding_members, finding_objects, findings_json as findings_object, findings_members, kind_member, set_object};

use crate::message::push_bytes;
use crate::parts::{push_number, push_text};
use crate::report::{begin, finish, push_answer};
use baf_auditor::{Finding, Findings, Label, Set};
use county_problem::GroupingFault;
use grouping_report::{push_block, push_grouping_fault};
use json::Writer;
use std::alloc::{AllocError, Global};

/// Appends an object whose only member is this `number`, under this `name`.
fn push_numbered(out: &mut Writer, name: &str, number: u64) -> Result<(), AllocError>
    ensures { Adds result out.old out.new (begin_object ∷ number_member name.now number ++ end_object ∷ []) }
{
    out.begin_object()?;
    push_number(out, name, number)?;
    out.end_object()
}

/// Appends the kind and the number of `set`.
fn push_set(out: &mut Writer, set: Set) -> Result<(), AllocError>
    ensures { Adds result out.old out.new (set_object set) }
{
    match set {
        Set::Group(number) => push_numbered(out, "group", u64::from(number)),
        Set::Withdrawn(number) => push_numbered(out, "withdrawn", u64::from(number)),
    }
}

/// Appends the `kind` of a finding.
fn push_kind(out: &mut Writer, kind: &str) -> Result<(), AllocError>
    ensures { Adds result out.old out.new (kind_member kind.now) }
{
    push_text(out, "finding", kind)
}

/// Appends the `kind` of a finding about a `block`, and the fifteen digits of the block.
fn push_of_block(alloc: Global, out: &mut Writer, kind: &str, block: u64) -> Result<(), AllocError>
    ensures { Adds result out.old out.new (kind_member kind.now ++ text_member (codes "block") (fifteen_digits block)) }
{
    let mut digits = Vec::new(alloc);
    push_block(&mut digits, block)?;
    push_kind(out, kind)?;
    push_bytes(out, "block", &digits)
}

/// Appends the finding that the grouping has this `fault`.
fn push_fault(alloc: Global, out: &mut Writer, fault: GroupingFault) -> Result<(), AllocError>
    ensures { Adds result out.old out.new (finding_members (findings.Grouping fault)) }
{
    let mut words = Vec::new(alloc);
    push_grouping_fault(&mut words, fault)?;
    push_kind(out, "Grouping")?;
    push_bytes(out, "fault", &words)
}

/// Appends the finding that the district of this `label` has blocks in the two sets `first` and `second`.
fn push_crossing(out: &mut Writer, label: &Label, first: Set, second: Set) -> Result<(), AllocError>
    ensures { Adds result out.old out.new (finding_members (findings.Crosses label.now first second)) }
{
    push_kind(out, "Crosses")?;
    push_bytes(out, "district", label.as_bytes())?;
    out.key("sets")?;
    out.begin_array()?;
    push_set(out, first)?;
    push_set(out, second)?;
    out.end_array()
}

/// Appends the finding of a `set` with its `seats` and its `districts`.
fn push_wrong_number(
    out: &mut Writer,
    set: Set,
    seats: u16,
    districts: u32,
) -> Result<(), AllocError>
    ensures { Adds result out.old out.new (finding_members (findings.WrongNumber set seats districts)) }
{
    push_kind(out, "WrongNumber")?;
    out.key("set")?;
    push_set(out, set)?;
    push_number(out, "seats", u64::from(seats))?;
    push_number(out, "districts", u64::from(districts))
}

/// Appends the finding of a district with its `people`.
fn push_district_size(out: &mut Writer, label: &Label, people: u64) -> Result<(), AllocError>
    ensures { Adds result out.old out.new (finding_members (findings.DistrictSize label.now people)) }
{
    push_kind(out, "DistrictSize")?;
    push_bytes(out, "district", label.as_bytes())?;
    push_number(out, "people", people)
}

/// Appends what `finding` names, its kind first.
fn push_members(alloc: Global, out: &mut Writer, finding: &Finding) -> Result<(), AllocError>
    ensures { Adds result out.old out.new (finding_members finding.now) }
{
    match finding {
        Finding::Grouping(fault) => push_fault(alloc, out, *fault),
        Finding::UnknownBlock(block) => push_of_block(alloc, out, "UnknownBlock", *block),
        Finding::BlockTwice(block) => push_of_block(alloc, out, "BlockTwice", *block),
        Finding::Unassigned(block) => push_of_block(alloc, out, "Unassigned", *block),
        Finding::Crosses(label, first, second) => push_crossing(out, label, *first, *second),
        Finding::WrongNumber(set, seats, districts) => {
            push_wrong_number(out, *set, *seats, *districts)
        }
        Finding::DistrictSize(label, people) => push_district_size(out, label, *people),
    }
}

/// Appends the objects of `findings`.
fn push_objects(alloc: Global, out: &mut Writer, findings: &[Finding]) -> Result<(), AllocError>
    ensures { Adds result out.old out.new (finding_objects findings.now) }
{
    for finding in findings {
        out.begin_object()?;
        push_members(alloc, out, finding)?;
        out.end_object()?;
    }
    Ok(())
}

/// Appends that the answer is findings, and the array of `findings`.
fn push_findings(alloc: Global, out: &mut Writer, findings: &[Finding]) -> Result<(), AllocError>
    ensures { Adds result out.old out.new (findings_members findings.now) }
{
    push_answer(out, "findings")?;
    out.key("findings")?;
    out.begin_array()?;
    push_objects(alloc, out, findings)?;
    out.end_array()
}

/// Returns the `findings` as an object on one line: each finding is an object with its kind and what it names. A block
/// is a text of the fifteen digits of its GEOCODE.
///
/// # Errors
///
/// Returns `AllocError` if memory was refused.
pub fn findings_json(alloc: Global, findings: &Findings) -> Result<Vec<u8>, AllocError>
    ensures { IfOk result (λ v. v.items ≡ findings_object findings.now.list.items) }
{
    let mut out = begin(alloc)?;
    push_findings(alloc, &mut out, findings.list.as_slice())?;
    finish(out, &None)
}
