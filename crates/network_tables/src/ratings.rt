// ratings.csv: the cost of a minute of waiting, by rating.
ghost use Rattle.std.specs.Prelude.{◌≡◌, [], length, option_map};
ghost use Rattle.network_tables.specs.Words.{fields_of, value_under, ratings_of, ratings_fault, Reads, rating_of};
ghost use Rattle.network_tables.specs.Words.{ratings_schema, ratings_in};

use crate::files::read_file;
use crate::{Files, NetworkFault};
use csv::ByteRecord;
use route_base::limits::MOST_RATINGS;
use route_base::{Cause, Cost, FileKind, is_name_field, read_weight};
use std::alloc::Global;
use std::marker::Model;
use table_reader::{NameIndex, RowFault, Table, two_fields};

/// The weights of ratings by name, which contracts see as a list of pairs in the order of the rows.
#[derive(Drop)]
pub struct RatingTable {
    weights: NameIndex<Cost>,
}

impl Model for RatingTable {
    ghost use Rattle.std.specs.Prelude.{List, ℕ};

    ghost Value = { List (List ℕ × ℕ) };

    ghost view = { λ t. t.weights };
}

impl RatingTable {
    /// No ratings yet.
    pub fn new(alloc: Global) -> Self
        ensures { result ≡ [] }
    {
        RatingTable {
            weights: NameIndex::new(alloc),
        }
    }

    /// The weight of the rating with this name, in constant time on average.
    pub fn weight(&self, name: &[u8]) -> Option<Cost>
        ensures { result ≡ value_under self.now name.now }
    {
        self.weights.value(name)
    }
}

// Parses a data row.
fn read_rating(row: &ByteRecord) -> Option<(&[u8], Cost)>
    requires { length (fields_of row.now) ≡ 2 }
    ensures { option_map (λ r. (r.0.now, r.1)) result ≡ rating_of (fields_of row.now) }
{
    let (name, weight) = two_fields(row);
    if !is_name_field(name) {
        return None;
    }
    Some((name, read_weight(weight)?))
}

impl Table for RatingTable {
    ghost schema = { λ t. ratings_schema };

    ghost becomes = { λ _ t header rows. t ≡ ratings_in rows };

    fn headers(&self) -> &'static [&'static [&'static str]] {
        &[&["rating", "weight"]]
    }

    fn limit(&self) -> u32 {
        MOST_RATINGS
    }

    fn add(&mut self, alloc: Global, _header: &[&str], row: &ByteRecord) -> Result<(), RowFault> {
        let Some((name, weight)) = read_rating(row) else {
            return Err(RowFault::Bad(Cause::BadField));
        };
        self.weights.add(alloc, name, weight)
    }
}

/// The weights of ratings by name. Linear in the bytes, on average.
pub fn read_ratings(alloc: Global, files: &Files) -> Result<RatingTable, NetworkFault>
    ensures { Reads result (ratings_fault files.now) (λ ratings. ratings ≡ ratings_of files.now) }
{
    read_file(
        alloc,
        FileKind::Ratings,
        &files.ratings,
        RatingTable::new(alloc),
    )
}
