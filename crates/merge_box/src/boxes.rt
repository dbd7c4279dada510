//! The merge box and its plans.
ghost use Rattle.std.specs.Prelude.{◌≡◌, [], IfOk, OnErr};
ghost use Rattle.map_model.specs.Maps.{at, IsSorted};
ghost use Rattle.merge_model.specs.Publishing.{apply as applied, drop_sub as dropped};
ghost use Rattle.merge_model.specs.Kept.{merged as merged_docs, merged_doc, kept_at};
ghost use Rattle.ejson_value.specs.Key.{key_cmp};
ghost use Rattle.ejson_value.specs.Changes.{news_of};
ghost use Rattle.known_texts.specs.Places.{Texts};
ghost use Rattle.merge_box.specs.State.{shared_count, StandsFor, IsPlan, IsBox};
ghost use Rattle.merge_box.specs.Words.{NewsList, seen_in, said_all, AreWords};

use crate::index::{Index, forget_unlisted};
use crate::kept::KeptMap;
use crate::news::{is_by_key, last_by_key};
use crate::plan::{ChangeList, Words, plan_news, removals, take_all};
use ejson_value::{Doc, Key, Mem, Publish, Publishes};
use known_texts::KnownTexts;
use std::alloc::Global;
use std::collections::BTreeMap;
use std::marker::Model;
use std::mem;

/// The merge box of a session: which subscriptions publish which documents, and for each field of a
/// document the values in the order in which their subscriptions began to publish it. A client sees
/// each field's first value. Contracts see what is kept of each document that somebody publishes,
/// and what is kept once the last plan is carried out.
#[derive(Drop)]
pub struct MergeBox {
    alloc: Global,
    // With places for what the changes bring.
    kept: KeptMap,
    // How many documents two or more subscriptions publish.
    listed: u64,
    index: Index,
    // The last plan: its subscription, and what it changes.
    sub: u64,
    changes: ChangeList,
}

impl Model for MergeBox {
    ghost use Rattle.std.specs.Prelude.{◌≡◌};
    ghost use Rattle.merge_box.specs.State.{BoxState, shared_count};
    ghost use Rattle.merge_box.specs.StateCoding.{box_code};
    ghost use Rattle.merge_box.specs.Index.{lists_of};
    ghost use Rattle.merge_box.specs.Inside.{docs_of, changes_of, carried_out, IsInside, AreNamed};

    ghost Value = { BoxState };

    ghost coded = { box_code };

    ghost view = { λ a. record {
      kept = docs_of a.kept.docs;
      planned = docs_of (carried_out (changes_of a.kept.keys a.changes.items) a.kept.docs);
    } };

    ghost invariant = { λ a. IsInside a.kept.docs (changes_of a.kept.keys a.changes.items) (lists_of a.index.entries)
        × AreNamed a.kept.keys a.changes.items
        × (a.listed ≡ shared_count a.kept.docs) };
}

// The document as the client sees it.
fn merged_at(kept: &KeptMap, alloc: Global, key: &Key) -> Result<Option<Doc>, Mem>
    ensures { IfOk result (λ doc. doc ≡ merged_doc (kept_at key_cmp kept.now.docs key.now)) }
{
    match kept.get(key) {
        None => Ok(None),
        Some(held) => {
            if held.is_published() {
                Ok(Some(held.merged(alloc)?))
            } else {
                Ok(None)
            }
        }
    }
}

impl MergeBox {
    /// A box of which nobody publishes anything. It stands for no calls.
    pub fn new(alloc: Global) -> MergeBox
        ensures empty { result ≡ record { kept = []; planned = [] } }
        ensures stands { StandsFor [] result.kept }
    {
        MergeBox {
            alloc,
            kept: KeptMap::new(alloc),
            listed: 0,
            index: BTreeMap::new(alloc),
            sub: 0,
            changes: Vec::new(alloc),
        }
    }

    /// Tells a proof what a box keeps whole; it does nothing.
    pub fn known(&self)
        ensures kept { IsBox self.now.kept }
        ensures planned { IsBox self.now.planned }
    {
        let _ = &self.kept;
    }

    // Plans what a subscription publishes now, where the news stand by rising key.
    fn plan_by_key(&mut self, sub: u64, news: &[Publish], texts: &KnownTexts) -> Result<Words, Mem>
        requires { IsSorted key_cmp (news_of news.now) }
        ensures same { self.new.kept ≡ self.old.kept }
        ensures planned { IfOk result (λ words. IsPlan (applied sub (news_of news.now)) self.new
            (said_all (seen_in self.old.kept) (news_of news.now) words.items)) }
        ensures words { IfOk result (λ words. AreWords sub self.old.kept (news_of news.now) texts.now words.items) }
        ensures err { OnErr result (self.new ≡ self.old) }
    {
        let mut words = Vec::new(self.alloc);
        let made = plan_news(
            &mut self.kept,
            &mut words,
            &mut self.index,
            self.alloc,
            sub,
            news,
            texts,
        );
        let _len = self.kept.len();
        let changes = made?;
        self.sub = sub;
        self.changes = changes;
        Ok(words)
    }

    // The same, where nothing is known of what a client is told. It tells a proof what the box keeps whole.
    fn plan_unknown(&mut self, sub: u64, news: &[Publish]) -> Result<Words, Mem>
        requires { IsSorted key_cmp (news_of news.now) }
        ensures same { self.new.kept ≡ self.old.kept }
        ensures kept { IsBox self.new.kept }
        ensures whole { IsBox self.new.planned }
        ensures planned { IfOk result (λ words. (others : NewsList) → IsPlan (applied sub (news_of news.now)) self.new
            (said_all (seen_in self.old.kept) others words.items)) }
        ensures words { IfOk result (λ words. (others : NewsList) (texts : Texts) → AreWords sub self.old.kept others texts words.items) }
        ensures err { OnErr result (self.new ≡ self.old) }
    {
        let texts = KnownTexts::new(self.alloc);
        let made = self.plan_by_key(sub, news, &texts);
        self.known();
        made
    }

    // Plans what a subscription publishes now, where the news stand in any order.
    fn plan_unordered(&mut self, sub: u64, news: &[Publish]) -> Result<Words, Mem>
        ensures same { self.new.kept ≡ self.old.kept }
        ensures planned { IfOk result (λ words. IsPlan (applied sub (news_of news.now)) self.new
            (said_all (seen_in self.old.kept) (news_of news.now) words.items)) }
        ensures words { IfOk result (λ words. (texts : Texts) → AreWords sub self.old.kept (news_of news.now) texts words.items) }
        ensures err { OnErr result (self.new ≡ self.old) }
    {
        let last = last_by_key(self.alloc, news)?;
        self.plan_unknown(sub, last.as_slice())
    }

    /// Plans that a subscription publishes this from now on, and answers what the client is told once
    /// it is carried out. What is kept stays as it is, and the plan is what `commit` carries out next:
    /// it waits in the box, with all the memory that it needs. The box doesn't look at the texts that
    /// are known of the publishes, only at which there are.
    pub fn plan(&mut self, sub: u64, news: &Publishes, texts: &KnownTexts) -> Result<Words, Mem>
        ensures same { self.new.kept ≡ self.old.kept }
        ensures planned { IfOk result (λ words. IsPlan (applied sub (news_of news.now)) self.new
            (said_all (seen_in self.old.kept) (news_of news.now) words.items)) }
        ensures words { IfOk result (λ words. AreWords sub self.old.kept (news_of news.now) texts.now words.items) }
        ensures err { OnErr result (self.new ≡ self.old) }
    {
        let news = news.as_slice();
        if is_by_key(news) {
            self.plan_by_key(sub, news, texts)
        } else {
            self.plan_unordered(sub, news)
        }
    }

    /// Plans that a subscription publishes nothing any more. Each word is a message, of no place.
    pub fn plan_drop(&mut self, sub: u64) -> Result<Words, Mem>
        ensures same { self.new.kept ≡ self.old.kept }
        ensures planned { IfOk result (λ words. IsPlan (dropped sub) self.new (said_all (seen_in self.old.kept) [] words.items)) }
        ensures words { IfOk result (λ words. AreWords sub self.old.kept [] [] words.items) }
        ensures err { OnErr result (self.new ≡ self.old) }
    {
        let news = removals(&self.index, self.alloc, sub)?;
        self.plan_unknown(sub, news.as_slice())
    }

    /// Carries out what was planned last. It takes no memory.
    pub fn commit(&mut self)
        ensures kept { self.new.kept ≡ self.old.planned }
        ensures planned { self.new.planned ≡ self.new.kept }
    {
        let changes = mem::replace(&mut self.changes, Vec::new(self.alloc));
        let listed = take_all(
            &mut self.kept,
            &mut self.index,
            self.sub,
            changes,
            self.listed,
        );
        self.listed = listed;
        forget_unlisted(&mut self.index, self.sub);
        let _len = self.kept.len();
    }

    /// The document at this key as the client sees it.
    pub fn merged(&self, key: &Key) -> Result<Option<Doc>, Mem>
        ensures { IfOk result (λ doc. doc ≡ at key_cmp (merged_docs self.now.kept) key.now) }
    {
        let doc = merged_at(&self.kept, self.alloc, key)?;
        Ok(doc)
    }

    /// How many documents two or more subscriptions publish. It looks at none of them.
    pub fn listed(&self) -> u64
        ensures { result ≡ shared_count self.now.kept }
    {
        self.listed
    }
}
