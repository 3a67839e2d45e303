// An ordered index of expanded names. The names of attributes are chosen by strangers, so no hash with a fixed seed.
ghost use Rattle.std.specs.Prelude.{◌≡◌, ◌<◌, ◌≤◌, IfOk, OnOk, OnErr, Some, if◌then◌else◌, length};
ghost use Rattle.result_events.specs.Tidy.{same_expanded};
ghost use Rattle.result_events.specs.Places.{found, place_from, Finds};
ghost use Rattle.result_events.specs.declared.event.Name.{Name as AnyName};

use crate::event::{Attribute, Name};
use std::alloc::{AllocError, Global};
use std::cmp::Ordering;
use std::collections::BTreeMap;

/// Up to so many attributes are compared one by one; most elements have no more.
pub const FEW: usize = 8;

/// An expanded name as a key. Local names are compared first, since a URI can be long and is often shared.
#[derive(Debug, Drop, PartialEq, Eq, PartialOrd, Ord)]
pub struct ExpandedName {
    pub local: Vec<u8>,
    pub uri: Vec<u8>,
}

/// The key of a name.
pub fn expanded(alloc: Global, name: &Name) -> Result<ExpandedName, AllocError>
    ensures local { IfOk result (λ key. key.local.items ≡ name.now.local) }
    ensures uri { IfOk result (λ key. key.uri.items ≡ name.now.uri) }
{
    Ok(ExpandedName {
        local: Vec::from_slice(alloc, name.local.as_slice())?,
        uri: Vec::from_slice(alloc, name.uri.as_slice())?,
    })
}

/// Where the index finds a name.
pub fn find(
    alloc: Global,
    index: &BTreeMap<ExpandedName, usize>,
    name: &Name,
) -> Result<Option<usize>, AllocError>
    ensures { IfOk result (λ place. place ≡ found name.now index.now) }
{
    let key = expanded(alloc, name)?;
    Ok(index.get(&key).copied())
}

/// Has the index find a name at `at`.
pub fn note(
    alloc: Global,
    index: &mut BTreeMap<ExpandedName, usize>,
    name: &Name,
    at: usize,
) -> Result<(), AllocError>
    ensures ok { OnOk result ((other : AnyName) → found other index.new ≡ (if same_expanded name.now other then Some at else found other index.old)) }
    ensures err { OnErr result ((other : AnyName) → found other index.new ≡ found other index.old) }
{
    let key = expanded(alloc, name)?;
    index.insert(key, at)?;
    Ok(())
}

/// An index that finds each of these attributes, and of two with one expanded name the first.
pub fn index_of(
    alloc: Global,
    attributes: &[Attribute],
) -> Result<BTreeMap<ExpandedName, usize>, AllocError>
    ensures { IfOk result (λ index. Finds index attributes.now) }
{
    let mut index = BTreeMap::new(alloc);
    let mut at = attributes.len();
    while at > 0 {
        at -= 1;
        note(alloc, &mut index, &attributes[at].name, at)?;
    }
    Ok(index)
}

/// Has the index find one more attribute, which is to stand behind these and whose name is new. Only more than
/// a few are found by the index, and it is made when they come to be more.
pub fn note_next(
    alloc: Global,
    index: &mut BTreeMap<ExpandedName, usize>,
    attributes: &[Attribute],
    name: &Name,
) -> Result<(), AllocError>
    requires { FEW < length attributes.now → Finds index.old attributes.now }
    ensures ok { OnOk result (FEW ≤ length attributes.now → (other : AnyName) → found other index.new ≡ (if same_expanded name.now other then Some (length attributes.now) else place_from other 0 attributes.now)) }
    ensures err { OnErr result (FEW < length attributes.now → Finds index.new attributes.now) }
{
    match attributes.len().cmp(&FEW) {
        Ordering::Less => Ok(()),
        Ordering::Equal => {
            let mut made = index_of(alloc, attributes)?;
            note(alloc, &mut made, name, attributes.len())?;
            *index = made;
            Ok(())
        }
        Ordering::Greater => note(alloc, index, name, attributes.len()),
    }
}
