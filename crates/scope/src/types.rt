// Types, as words in a row that stand in the table: equality, mentions, depth and replacement, each said once.
ghost use Rattle.std.specs.Prelude.{◌≡◌, ◌+◌, ◌<◌, ◌≤◌, [], ◌∷◌, drop, MatchOption};
ghost use Rattle.draft.specs.Items.{text_of, items};
ghost use Rattle.language.specs.Types.{int, list, same_type, mentions as mentions_region, depth as depth_of, renamed as renamed_by};
ghost use Rattle.scope.specs.Words.{bytes, row, word, declared, handed, type_of, left};

use crate::name::same_name;
use crate::spot::Spot;
use draft::command::Name;
use draft::table::Table;

// A type points into a table, and a name into its text: they keep no reference, so that entries and drafts can be copied
// and moved, and who reads one is given the table beside it.
//
// A type: int; or the words from a position on; or, seen from a call, those words with the regions that the callee
// declares from a position on replaced by the regions that the call hands over from a position on.
#[derive(Clone, Copy)]
pub enum Sort {
    Int,
    Written(usize),
    Called(usize, usize, usize),
}

// The name that stands for a region, where each declared region gives way to the one handed over at its place.
pub fn renamed(table: &Table, old: usize, new: usize, name: Name) -> Name
    ensures { bytes (text_of table.now) result ≡ renamed_by (row declared (drop old (items table.now))) (row handed (drop new (items table.now))) (bytes (text_of table.now) name) }
{
    match (
        Spot::at(table, old).declared(),
        Spot::at(table, new).handed(),
    ) {
        (Some((from, _)), Some((to, _))) => {
            if same_name(table, from, name) {
                to
            } else {
                renamed(table, old + 1, new + 1, name)
            }
        }
        _ => name,
    }
}

// The region of the word of a type at a position, and the position behind it.
fn word_at(table: &Table, position: usize) -> Option<(Name, usize)>
    ensures { MatchOption result (row word (drop position (items table.now)) ≡ []) (λ w. (position < 4096) × (w.1 ≡ position + 1) × (row word (drop position (items table.now)) ≡ bytes (text_of table.now) w.0 ∷ row word (drop (position + 1) (items table.now)))) }
{
    let (name, behind) = Spot::at(table, position).word()?;
    Some((name, behind.position))
}

// The region of a type's first word, and the type behind that word; none for int.
pub fn head(table: &Table, sort: Sort) -> Option<(Name, Sort)>
    ensures { MatchOption result (type_of (items table.now) sort ≡ int) (λ h. (type_of (items table.now) sort ≡ list (bytes (text_of table.now) h.0) (type_of (items table.now) h.1)) × (left h.1 < left sort)) }
{
    match sort {
        Sort::Int => None,
        Sort::Written(words) => {
            let (name, behind) = word_at(table, words)?;
            Some((name, Sort::Written(behind)))
        }
        Sort::Called(words, old, new) => {
            let (name, behind) = word_at(table, words)?;
            let region = renamed(table, old, new, name);
            Some((region, Sort::Called(behind, old, new)))
        }
    }
}

// Whether two types agree in words and regions throughout.
pub fn same_sort(table: &Table, left: Sort, right: Sort) -> bool
    ensures { result ≡ same_type (type_of (items table.now) left) (type_of (items table.now) right) }
{
    match (head(table, left), head(table, right)) {
        (None, None) => true,
        (Some((first, inner)), Some((second, other))) => {
            same_name(table, first, second) && same_sort(table, inner, other)
        }
        _ => false,
    }
}

// Whether a type mentions a region, in any of its words.
pub fn mentions(table: &Table, region: Name, sort: Sort) -> bool
    ensures { result ≡ mentions_region (bytes (text_of table.now) region) (type_of (items table.now) sort) }
{
    match head(table, sort) {
        None => false,
        Some((name, inner)) => same_name(table, name, region) || mentions(table, region, inner),
    }
}

// How deep a type is nested: int is 0.
pub fn depth(table: &Table, sort: Sort) -> usize
    ensures is { result ≡ depth_of (type_of (items table.now) sort) }
    ensures within { result ≤ left sort }
{
    match head(table, sort) {
        None => 0,
        Some((_, inner)) => 1 + depth(table, inner),
    }
}
