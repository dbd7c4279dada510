//! The entries of a span that alone name a key: what is known of the one is known of the other.
ghost use Rattle.std.specs.Prelude.{◌≡◌, ℕ, ◌+◌, ◌<◌, ◌≤◌, Option, None, Some, IfSome, map, length};
ghost use Rattle.value_model.specs.Val.{Entries};
ghost use Rattle.map_model.specs.Maps.{at, IsSorted};
ghost use Rattle.ejson_value.specs.Key.{key_cmp};
ghost use Rattle.ejson_value.specs.Rows.{Rows};
ghost use Rattle.ejson_value.specs.Changes.{news_of};
ghost use Rattle.publication.specs.Cursors.{ACursors};
ghost use Rattle.publication.specs.Published.{published};
ghost use Rattle.multiplexer.specs.Inside.{seen_entry, news_told};
ghost use Rattle.multiplexer.specs.Joining.{key_at};
ghost use Rattle.multiplexer.specs.Known.{IsKnown, AreKnown};
ghost use Rattle.multiplexer.specs.Leading.{IsLead};
ghost use Rattle.multiplexer.specs.Origins.{AreByKey, IsSole, AreTaught};

use crate::entry::Told;
use crate::keeping::keep_text;
use ejson_value::{Key, Publishes, Text};
use known_texts::KnownTexts;

/// An entry, and a place among what is told of it.
#[derive(Clone, Copy, Drop)]
pub(crate) struct Origin {
    entry: usize,
    place: usize,
}

// Where the key is named.
fn place_in(news: &Publishes, key: &Key) -> Option<usize>
    ensures there { IsSorted key_cmp (news_of news.now) → IfSome result (λ place. key_at (news_of news.now) place ≡ Some key.now) }
    ensures none { IsSorted key_cmp (news_of news.now) → result ≡ None → at key_cmp (news_of news.now) key.now ≡ None }
{
    match news.as_slice().binary_search_by(|one| one.key.cmp(key)) {
        Ok(place) => Some(place),
        Err(_gap) => None,
    }
}

// The entry that alone names the key.
fn sole(all: &[Told], key: &Key) -> Option<Origin>
    ensures within { IfSome result (λ o. o.entry < length all.now) }
    ensures sole { AreByKey (map seen_entry all.now) → IfSome result (λ o. IsSole (map seen_entry all.now) key.now o.entry o.place) }
{
    let mut sole = None;
    for entry in 0..all.len() {
        if let Some(place) = place_in(&all[entry].news, key) {
            if sole.is_some() {
                return None;
            }
            sole = Some(Origin { entry, place });
        }
    }
    sole
}

// The text of the key is known of the entry too that alone names it.
fn teach_one(all: &mut Vec<Told>, start: usize, end: usize, key: &Key, text: &Text)
    requires order { start ≤ end }
    requires within { end ≤ length all.old.items }
    ensures many { length all.new.items ≡ length all.old.items }
    ensures same { map news_told all.new.items ≡ map news_told all.old.items }
    ensures taught { (cursors : ACursors) (C : ℕ → Rows) (first : ℕ) (doc : Option Entries) →
        AreTaught cursors C first (map seen_entry all.old.items) → doc ≡ published cursors (C (first + end)) key.now →
        IsKnown (published cursors (C (first + start))) (key.now, doc) (Some text.now) → AreTaught cursors C first (map seen_entry all.new.items) }
{
    let Some(origin) = sole(&all[start..end], key) else {
        return;
    };
    let one = &mut all[start + origin.entry];
    keep_text(&mut one.texts, origin.place, Some(text));
}

/// The texts of these places that are known of what is told of these entries together are known of those
/// entries too that alone name a key.
pub(crate) fn teach(
    all: &mut Vec<Told>,
    start: usize,
    end: usize,
    told: &Publishes,
    texts: &KnownTexts,
    places: &[usize],
)
    requires order { start ≤ end }
    requires within { end ≤ length all.old.items }
    ensures many { length all.new.items ≡ length all.old.items }
    ensures same { map news_told all.new.items ≡ map news_told all.old.items }
    ensures taught { (cursors : ACursors) (C : ℕ → Rows) (first : ℕ) → AreTaught cursors C first (map seen_entry all.old.items) →
        IsLead (published cursors (C (first + start))) (published cursors (C (first + end))) (news_of told.now) →
        AreKnown (published cursors (C (first + start))) (news_of told.now) texts.now → AreTaught cursors C first (map seen_entry all.new.items) }
{
    for place in places {
        if let Some(one) = told.get(*place) {
            if let Some(text) = texts.get(*place) {
                teach_one(all, start, end, &one.key, text);
            }
        }
    }
}
