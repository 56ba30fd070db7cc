//! What a database lists, and which of it is the table of wtmpdb.
ghost use Rattle.std.specs.Prelude.{◌≡◌, All, IfOk, MatchOption, map};
ghost use Rattle.std.specs.List.{list_any};
ghost use Rattle.sqlite_store.specs.Catalog.{text_or_null, wanted_of};
ghost use Rattle.sqlite_value.specs.Order.{column};
ghost use Rattle.sqlite_value.specs.Value.{owned};
ghost use Rattle.sqlite_value.specs.declared.value.Value.TheVariants.{Text};
ghost use Rattle.tally_wtmpdb.specs.Catalog as Spec;
ghost use Rattle.tally_wtmpdb.specs.Catalog.{HasTexts, IsText, IsTextOrNull, wanted_in};

use crate::row::text_at;
use sqlite_trees::schema::Object;
use sqlite_trees::store::Shape;
use sqlite_value::keys::Order;
use sqlite_value::row::Row;
use sqlite_value::value::ValueRef;
use std::alloc::{AllocError, Global};
use std::str::from_utf8;

/// What the text of the table begins with, of each version of wtmpdb that is known.
const KNOWN_COLUMNS: [&[u8]; 1] = [
    b"CREATE TABLE wtmp(ID INTEGER PRIMARY KEY, Type INTEGER, User TEXT NOT NULL, Login INTEGER, Logout INTEGER, TTY TEXT, RemoteHost TEXT, Service TEXT",
];

/// The places of what is listed of an object.
const TYPE: usize = 1;

const NAME: usize = 2;

const TABLE: usize = 3;

const SQL: usize = 5;

/// Whether a text begins with these columns, and they are all or are followed by others.
fn has_columns(sql: &[u8], columns: &[u8]) -> bool
    ensures { result ≡ Spec.has_columns sql.now columns.now }
{
    let next = sql.get(columns.len()).copied().unwrap_or(0);
    sql.starts_with(columns) && (next == b')' || next == b',')
}

fn has_some_columns(sql: &[u8], known: &[&[u8]]) -> bool
    ensures { result ≡ list_any (λ columns. Spec.has_columns sql.now columns.now) known.now }
{
    known.iter().any(|columns| has_columns(sql, *columns))
}

fn has_known_columns(sql: &[u8]) -> bool
    ensures { result ≡ Spec.has_known_columns sql.now }
{
    has_some_columns(sql, &KNOWN_COLUMNS)
}

/// Whether a listed object is the table of wtmpdb.
fn is_wtmp(object: &Row) -> bool
    ensures { result ≡ Spec.is_wtmp object.now }
{
    text_at(object, TYPE) == b"table".as_slice()
        && text_at(object, NAME) == b"wtmp".as_slice()
        && has_known_columns(text_at(object, SQL))
}

/// Where the table of wtmpdb is listed.
pub(crate) fn wtmp_place(objects: &[Row]) -> Option<usize>
    ensures { result ≡ Spec.wtmp_place objects.now }
{
    objects.iter().position(|object| is_wtmp(object))
}

/// A value that is a text in UTF-8.
fn text_in(value: ValueRef<'_>) -> Option<&str>
    ensures { MatchOption result (¬ IsText (owned value.entry)) (λ text. (owned value.entry ≡ Text text.now) × IsText (owned value.entry)) }
{
    match value {
        ValueRef::Text(bytes) => from_utf8(bytes).ok(),
        _ => None,
    }
}

/// How an object of this type is stored.
fn shape_of(kind: &str) -> Shape
    ensures { result ≡ Spec.shape_of kind.now }
{
    match kind {
        "table" => Shape::Table,
        "index" => Shape::Index(Order::PLAIN),
        _ => Shape::Pageless,
    }
}

/// The SQL text of a listed object, or that it has none; `None` where it is another value.
fn sql_of(object: &Row) -> Option<Option<&str>>
    ensures { MatchOption result (¬ IsTextOrNull (column object.now SQL)) (λ sql. (column object.now SQL ≡ text_or_null sql) × IsTextOrNull (column object.now SQL)) }
{
    match object.get(SQL) {
        ValueRef::Null => Some(None),
        value => Some(Some(text_in(value)?)),
    }
}

/// A listed object, as a store is asked for it. One whose texts are none cannot be asked for.
fn object_in(listed: &Row) -> Option<Object<'_>>
    ensures { MatchOption result (¬ HasTexts listed.now) (λ object. wanted_of object ≡ wanted_in listed.now) }
{
    let kind = text_in(listed.get(TYPE))?;
    Some(Object {
        shape: shape_of(kind),
        kind,
        name: text_in(listed.get(NAME))?,
        table: text_in(listed.get(TABLE))?,
        reals: 0,
        sql: sql_of(listed)?,
    })
}

/// The listed objects, as a store is asked for them.
pub(crate) fn objects_in(
    alloc: Global,
    listed: &[Row],
) -> Result<Option<Vec<Object<'_>>>, AllocError>
    ensures { IfOk result (λ found. MatchOption found (¬ All HasTexts listed.now) (λ objects. map wanted_of objects.items ≡ map wanted_in listed.now)) }
{
    let mut objects = Vec::new(alloc);
    'objects: for row in listed {
        let Some(object) = object_in(row) else {
            return Ok(None);
        };
        objects.push(object)?;
    }
    Ok(Some(objects))
}
