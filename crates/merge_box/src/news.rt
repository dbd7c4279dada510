//! News in the order of their keys.
ghost use Rattle.std.specs.Prelude.{◌≡◌, ◌∷◌, IsTrue, IfOk};
ghost use Rattle.std.specs.Map.{keys_of};
ghost use Rattle.std.specs.List.Sorted.{IsStrictlySortedBy};
ghost use Rattle.map_model.specs.Maps.{IsSorted};
ghost use Rattle.merge_model.specs.Publishing.{last_news};
ghost use Rattle.ejson_value.specs.declared.key.Key.{Key};
ghost use Rattle.ejson_value.specs.Key.{key_cmp};
ghost use Rattle.ejson_value.specs.Changes.{news_of};

use ejson_value::{Doc, Key, Mem, Publish, Publishes, copy_option};
use std::alloc::Global;
use std::collections::BTreeMap;

// Whether the keys rise from this one on.
fn rise_from(key: &Key, news: &[Publish]) -> bool
    ensures { IsTrue result → IsStrictlySortedBy key_cmp (key.now ∷ keys_of (news_of news.now)) }
{
    let mut last = key;
    let mut rest = news;
    while let Some((next, others)) = rest.split_first() {
        if last.cmp(&next.key).is_ge() {
            return false;
        }
        last = &next.key;
        rest = others;
    }
    true
}

/// Whether the news stand by rising key.
pub(crate) fn is_by_key(news: &[Publish]) -> bool
    ensures { IsTrue result → IsSorted key_cmp (news_of news.now) }
{
    match news.split_first() {
        None => true,
        Some((first, others)) => rise_from(&first.key, others),
    }
}

// The news in the order of a map.
fn news_by_key(alloc: Global, last: &BTreeMap<Key, Option<Doc>>) -> Result<Publishes, Mem>
    ensures { IfOk result (λ news. news_of news ≡ last.now.entries) }
{
    let mut news = Publishes::new(alloc);
    for (key, new) in last.iter() {
        let key = key.copy()?;
        let new = copy_option(new)?;
        news.push(Publish { key, new })?;
    }
    Ok(news)
}

/// The last of the news of each key, by rising key.
pub(crate) fn last_by_key(alloc: Global, news: &[Publish]) -> Result<Publishes, Mem>
    ensures by_key { IfOk result (λ last. IsSorted key_cmp (news_of last)) }
    ensures last { IfOk result (λ last. (k : Key) → last_news key_cmp (news_of last) k ≡ last_news key_cmp (news_of news.now) k) }
{
    let mut last = BTreeMap::new(alloc);
    for publish in news {
        let key = publish.key.copy()?;
        let new = copy_option(&publish.new)?;
        drop(last.insert(key, new)?);
    }
    let _len = last.len();
    let news = news_by_key(alloc, &last)?;
    Ok(news)
}
