ghost use Rattle.std.specs.Prelude.{◌<◌, ◌≤◌, ◌^◌, ◌≡◌, Some, length};
ghost use Rattle.sdc_base.specs.Steps.{map_fault};
ghost use Rattle.hierarchy.specs.CodeList.{codes_of};
ghost use Rattle.hierarchy.specs.Lead.{lead_of};
ghost use Rattle.job_inputs.specs.CodeSources.{codes_in, listed_tree, tree_in, listed_codes};
ghost use Rattle.job_inputs.specs.ListedCodes.{AreListed};
ghost use Rattle.job_inputs.specs.Looks.{IsCodeListOf, IsFile};
ghost use Rattle.job_inputs.specs.ReadFiles.{limit};
ghost use Rattle.job_inputs.specs.Reading.{AreItemsReadFrom, IsSoundByItsType, IsValueReadFrom};
ghost use Rattle.job_inputs.specs.Refusals as spec;
ghost use Rattle.job_inputs.specs.Refusals.{IsReadAs};

use crate::faults::Fault;
use crate::file_ref::FileRef;
use crate::loading::load;
use crate::stop::InputStop;
use hierarchy::{CodeTree, TreeFault, from_lead, list_gives_its_codes, read_codes, with_missing};
use office_io::Shelf;
use plain_text::Stop;
use rda_meta::Variable;
use sdc_base::Text;
use std::alloc::Global;

/// The codes of a variable's code list, where it has one, from the shelf.
#[tactic(auto, using(crate::proofs::Listing::none_listed), unfolding(crate::specs::CodeSources::codes_in))]
pub(crate) fn read_list<S: Shelf>(
    alloc: Global,
    shelf: &mut S,
    place: u32,
    variable: &Variable,
) -> Result<Vec<Text>, InputStop>
    ensures { AreItemsReadFrom (λ fs. listed_codes fs place variable.now) (λ fs. IsCodeListOf place variable.now)
        (AreListed variable.now.total) limit result (S.state shelf.old) (S.state shelf.new) }
{
    match &variable.codes {
        None => Ok(Vec::new(alloc)),
        Some(name) => load_list(alloc, shelf, place, &variable.total, name),
    }
}

// The codes of the list of this name.
#[tactic(auto, unfolding(crate::specs::CodeSources::codes_in))]
fn load_list<S: Shelf>(
    alloc: Global,
    shelf: &mut S,
    place: u32,
    total: &Text,
    name: &Text,
) -> Result<Vec<Text>, InputStop>
    ensures { AreItemsReadFrom (λ fs. codes_in fs place total.now (Some name.now))
        (λ fs. IsFile (FileRef.CodeList place) name.now) (AreListed total.now) limit result
        (S.state shelf.old) (S.state shelf.new) }
{
    let file = FileRef::CodeList(place);
    let bytes = load(alloc, shelf, name, file)?;
    let codes = codes_by(alloc, file, bytes.as_slice(), total)?;
    Ok(codes)
}

// The codes that the bytes of a list give.
#[tactic(auto, using(crate::proofs::Refusing::tree_refuses, crate::proofs::Refusing::tree_is_for_contents))]
fn codes_by(
    alloc: Global,
    file: FileRef,
    bytes: &[u8],
    total: &Text,
) -> Result<Vec<Text>, Stop<Fault>>
    requires { length bytes.now < 2 ^ 32 }
    ensures { IsReadAs (λ codes. codes.items) (map_fault (Fault.Tree file) (codes_of total.now bytes.now))
        (λ codes. AreListed total.now codes.items) result }
{
    // for the proof: a code list gives the codes of its lines
    list_gives_its_codes();
    match read_codes(alloc, bytes, total) {
        Ok(codes) => Ok(codes),
        Err(fault) => Err(tree_refusal(file, fault)),
    }
}

/// The tree of a hierarchy file, with the missing codes of its variable, from the shelf.
#[tactic(auto, unfolding(crate::specs::CodeSources::listed_tree))]
pub(crate) fn read_tree<S: Shelf>(
    alloc: Global,
    shelf: &mut S,
    place: u32,
    variable: &Variable,
    name: &Text,
    lead: &Text,
) -> Result<CodeTree, InputStop>
    requires lead { 0 < length lead.now }
    requires missing { length variable.now.missing ≤ 2 }
    ensures { IsValueReadFrom (λ fs. listed_tree fs place variable.now name.now lead.now)
        (λ fs. IsFile (FileRef.Hierarchy place) name.now) IsSoundByItsType limit result (S.state shelf.old)
        (S.state shelf.new) }
{
    let file = FileRef::Hierarchy(place);
    let bytes = load(alloc, shelf, name, file)?;
    let tree = tree_by(alloc, file, bytes.as_slice(), lead, variable)?;
    Ok(tree)
}

// The tree that the bytes of a hierarchy file give, with the missing codes of its variable.
#[tactic(auto, unfolding(crate::specs::CodeSources::tree_in), using(crate::proofs::Refusing::tree_refuses, crate::proofs::Refusing::tree_is_for_contents))]
fn tree_by(
    alloc: Global,
    file: FileRef,
    bytes: &[u8],
    lead: &Text,
    variable: &Variable,
) -> Result<CodeTree, Stop<Fault>>
    requires fewer_than_2_32 { length bytes.now < 2 ^ 32 }
    requires lead { 0 < length lead.now }
    requires missing { length variable.now.missing ≤ 2 }
    ensures { IsReadAs (λ tree. tree) (tree_in file variable.now lead.now bytes.now) IsSoundByItsType result }
{
    let tree = lead_tree(alloc, file, bytes, lead, &variable.total)?;
    match with_missing(alloc, tree, variable.missing.as_slice()) {
        Ok(whole) => Ok(whole),
        Err(fault) => Err(tree_refusal(file, fault)),
    }
}

// The tree that the bytes of a hierarchy file give, without missing codes.
#[tactic(auto, using(crate::proofs::Refusing::tree_refuses, crate::proofs::Refusing::tree_is_for_contents))]
fn lead_tree(
    alloc: Global,
    file: FileRef,
    bytes: &[u8],
    lead: &Text,
    total: &Text,
) -> Result<CodeTree, Stop<Fault>>
    requires fewer_than_2_32 { length bytes.now < 2 ^ 32 }
    requires lead { 0 < length lead.now }
    ensures { IsReadAs (λ tree. tree) (map_fault (Fault.Tree file) (lead_of lead.now total.now bytes.now))
        IsSoundByItsType result }
{
    match from_lead(alloc, bytes, lead, total) {
        Ok(tree) => Ok(tree),
        Err(fault) => Err(tree_refusal(file, fault)),
    }
}

// What is wrong with a file of codes, as a refusal.
fn tree_refusal(file: FileRef, fault: TreeFault) -> Stop<Fault>
    ensures { result ≡ spec.tree_refusal file fault }
{
    match fault {
        TreeFault::Memory => Stop::Memory,
        other => Stop::Fault(Fault::Tree(file, other)),
    }
}
