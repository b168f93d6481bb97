ghost use Rattle.std.specs.Prelude.{◌≡◌, ◌++◌, ◌<◌, ℕ, List, length, slice_get, Some, find, option_map, IfOk, IfErr};
ghost use Rattle.rnv_manager.specs.declared.found.ExtractError.TheVariants.{Memory};
ghost use Rattle.rnv_manager.specs.Finds.{views};
ghost use Rattle.std.specs.BTreeMap.{get_by_text};
ghost use Rattle.std.specs.String.{string_bytes};
ghost use Rattle.rnv_cargo.specs.Named.{lines_of, key_of, package_key, has_key};
ghost use Rattle.rnv_cargo.specs.Roles.{standing, seen};
ghost use Rattle.rnv_cargo.specs.Grammar.{same_target, is_same, is_package_of};
ghost use Rattle.rnv_cargo.specs.Read.{spot_view, spots_view, package_at, find_or_none, spot_find, finds_in};

use crate::role::{Role, Spot, Table, is_clean};
use rnv_base::SourceKind;
use rnv_manager::{ExtractError, Found};
use std::alloc::{AllocError, Global};
use std::collections::BTreeMap;

fn same_target<'a>(one: Option<&'a str>, other: Option<&'a str>) -> bool
    ensures { result ≡ same_target (option_map (λ x. x.now) one.entry) (option_map (λ x. x.now) other.entry) }
{
    match one {
        None => other.is_none(),
        Some(x) => match other {
            None => false,
            Some(y) => x == y,
        },
    }
}

fn is_same<'a>(table: Table<'a>, name: &'a str, other: Table<'a>, key: &'a str) -> bool
    ensures { result ≡ is_same (seen table.entry) name.now (seen other.entry) key.now }
{
    same_target(table.target, other.target) && table.place == other.place && name == key
}

// Whether the string is the package of that name in that table.
fn is_package_of<'a>(table: Table<'a>, name: &'a str, role: Role<'a>) -> bool
    ensures { result ≡ is_package_of (seen table.entry) name.now (standing role.entry) }
{
    match role {
        Role::Package(other, key) => is_same(table, name, other, key),
        _ => false,
    }
}

// The place and what stands behind `target`, each on a line. Only memory can fail.
fn table_lines<'a>(alloc: Global, table: Table<'a>) -> Result<String, AllocError>
    ensures { IfOk result (λ key. string_bytes key ≡ lines_of table.entry.place.now (option_map (λ x. x.now) table.entry.target)) }
{
    let mut key = String::from_str(alloc, table.place)?;
    let Some(target) = table.target else {
        return Ok(key);
    };
    key.push_str("\n")?;
    key.push_str(target)?;
    Ok(key)
}

// The text by which the package of that name in that table is looked up. Only memory can fail.
fn key_of<'a>(alloc: Global, table: Table<'a>, name: &'a str) -> Result<String, AllocError>
    ensures { IfOk result (λ key. string_bytes key ≡ key_of (seen table.entry) name.now) }
{
    let mut key = table_lines(alloc, table)?;
    key.push_str("\n")?;
    key.push_str(name)?;
    Ok(key)
}

// The text of a package. Only memory can fail.
fn package_key<'a>(alloc: Global, role: Role<'a>) -> Result<Option<String>, AllocError>
    ensures { IfOk result (λ key. option_map string_bytes key ≡ package_key (standing role.entry)) }
{
    match role {
        Role::Package(table, name) => Ok(Some(key_of(alloc, table, name)?)),
        _ => Ok(None),
    }
}

fn spot_at<'a, 'b>(spots: &'b [Spot<'a>], at: usize) -> &'b Spot<'a>
    requires { at < length spots.now }
    ensures { slice_get spots.now at ≡ Some result.now }
{
    &spots[at]
}

// The first package with each text. Only memory can fail.
fn index<'a>(alloc: Global, spots: &[Spot<'a>]) -> Result<BTreeMap<String, Spot<'a>>, AllocError>
    ensures { IfOk result (λ index. (key : List ℕ) → get_by_text index key ≡ find (has_key key) spots.now) }
{
    let mut index = BTreeMap::new(alloc);
    let mut at = spots.len();
    while at > 0 {
        at -= 1;
        let spot = spot_at(spots, at);
        if let Some(key) = package_key(alloc, spot.role)? {
            index.insert(key, *spot)?;
        }
    }
    Ok(index)
}

// The same as `first_package`, by a look into the index. All strings are gone through only where the first
// package with that text is of another table or name, and no file has such a one. Only memory can fail.
fn package_of<'a>(
    alloc: Global,
    index: &BTreeMap<String, Spot<'a>>,
    spots: &[Spot<'a>],
    table: Table<'a>,
    name: &'a str,
) -> Result<&'a str, AllocError>
    requires { (key : List ℕ) → get_by_text index.now key ≡ find (has_key key) spots.now }
    ensures { IfOk result (λ p. p.now ≡ package_at (spots_view spots.now) (seen table.entry) name.now) }
{
    let key = key_of(alloc, table, name)?;
    match index.get(key.as_str()) {
        None => Ok(name),
        Some(spot) => {
            if is_package_of(table, name, spot.role) {
                Ok(spot.value)
            } else {
                Ok(first_package(spots, table, name))
            }
        }
    }
}

// The first package of the name in the table, or else the name.
fn first_package<'a>(spots: &[Spot<'a>], table: Table<'a>, name: &'a str) -> &'a str
    ensures { result.now ≡ package_at (spots_view spots.now) (seen table.entry) name.now }
{
    for spot in spots {
        if is_package_of(table, name, spot.role) {
            return spot.value;
        }
    }
    name
}

// Adds the version of that name in the table, where it is a find.
fn add<'a>(
    alloc: Global,
    index: &BTreeMap<String, Spot<'a>>,
    spots: &[Spot<'a>],
    spot: Spot<'a>,
    table: Table<'a>,
    name: &'a str,
    found: &mut Vec<Found<'a>>,
) -> Result<(), ExtractError>
    requires { (key : List ℕ) → get_by_text index.now key ≡ find (has_key key) spots.now }
    ensures ok { IfOk result (λ _. views found.new.items ≡ views found.old.items ++ find_or_none (seen table.entry) name.now (package_at (spots_view spots.now) (seen table.entry) name.now) (spot_view spot.entry)) }
    ensures err { IfErr result (λ e. e ≡ Memory) }
{
    let package = package_of(alloc, index, spots, table, name)?;
    if is_clean(name) && is_clean(package) && is_clean(spot.value) {
        found.push(Found {
            name,
            package,
            place: table.place,
            value: spot.value,
            start: spot.start,
            source: SourceKind::Crates,
        })?;
    }
    Ok(())
}

// Adds the string, where it is a find.
fn add_spot<'a>(
    alloc: Global,
    index: &BTreeMap<String, Spot<'a>>,
    spots: &[Spot<'a>],
    spot: Spot<'a>,
    found: &mut Vec<Found<'a>>,
) -> Result<(), ExtractError>
    requires { (key : List ℕ) → get_by_text index.now key ≡ find (has_key key) spots.now }
    ensures ok { IfOk result (λ _. views found.new.items ≡ views found.old.items ++ spot_find (package_at (spots_view spots.now)) (standing spot.entry.role) (spot_view spot.entry)) }
    ensures err { IfErr result (λ e. e ≡ Memory) }
{
    match spot.role {
        Role::Entry(table, name) => add(alloc, index, spots, spot, table, name, found),
        Role::Version(table, name) => add(alloc, index, spots, spot, table, name, found),
        _ => Ok(()),
    }
}

// The finds among all strings of a file.
pub fn finds<'a>(alloc: Global, spots: &[Spot<'a>]) -> Result<Vec<Found<'a>>, ExtractError>
    ensures ok { IfOk result (λ v. views v.items ≡ finds_in (spots_view spots.now)) }
    ensures err { IfErr result (λ e. e ≡ Memory) }
{
    let index = index(alloc, spots)?;
    let mut found = Vec::new(alloc);
    for spot in spots {
        add_spot(alloc, &index, spots, *spot, &mut found)?;
    }
    Ok(found)
}
