//! Documents saved before a simulation, and restored after it.
ghost use Rattle.std.specs.Prelude.{◌≡◌, ◌++◌, ◌∷◌, [], true, false, None, map, IfOk, OnOk, OnErr};
ghost use Rattle.map_model.specs.Maps.{at, set};
ghost use Rattle.map_model.specs.Differences.{taken};
ghost use Rattle.value_model.specs.Order.{text_cmp};
ghost use Rattle.view_model.specs.Views.{refusal};
ghost use Rattle.ejson_value.specs.Key.{key_cmp};
ghost use Rattle.ejson_value.specs.Messages.{said};
ghost use Rattle.minimongo.specs.Originals.{saves_of};
ghost use Rattle.minimongo.specs.Faults.{IsFitting};
ghost use Rattle.minimongo.specs.Restored.{saves_at, restored};

use crate::fault::ViewFault;
use crate::{Save, Saves, key_of, taken};
use counted_contents::CountedContents;
use ejson_value::{Change, Changes, Contents, DataMsg, Doc, Key, Keys, Mem, copy_option};
use std::alloc::Global;

// A copy of what stands at the key.
fn doc_at(contents: &Contents, key: &Key) -> Result<Option<Doc>, Mem>
    ensures { IfOk result (λ doc. doc ≡ at key_cmp contents.now key.now) }
{
    match contents.get(key) {
        None => Ok(None),
        Some(doc) => Ok(Some(doc.copy()?)),
    }
}

// Puts what stands at the key behind the others.
fn push_save(saves: &mut Saves, contents: &Contents, key: &Key) -> Result<(), Mem>
    ensures { OnOk result (saves_of saves.new ≡ saves_of saves.old ++ (key.now, at key_cmp contents.now key.now) ∷ []) }
{
    let doc = doc_at(contents, key)?;
    saves.push(Save {
        key: key.copy()?,
        doc,
    })
}

/// What stands at each of the keys.
pub(crate) fn saves_at(alloc: Global, contents: &Contents, keys: &Keys) -> Result<Saves, Mem>
    ensures { IfOk result (λ saves. saves_of saves ≡ saves_at contents.now keys.now) }
{
    let mut saves = Saves::new(alloc);
    for key in keys.as_slice() {
        push_save(&mut saves, contents, key)?;
    }
    Ok(saves)
}

// Puts behind the others the change that restores what was saved.
fn push_restored(changes: &mut Changes, contents: &Contents, save: &Save) -> Result<(), Mem>
    ensures { OnOk result (changes.new ≡ changes.old ++ restored contents.now save.now ∷ []) }
{
    let before = doc_at(contents, &save.key)?;
    let after = copy_option(&save.doc)?;
    changes.push(Change {
        key: save.key.copy()?,
        before,
        after,
    })
}

/// The changes that restore what was saved.
pub(crate) fn restoring(alloc: Global, contents: &Contents, saves: &Saves) -> Result<Changes, Mem>
    ensures { IfOk result (λ changes. changes ≡ map (restored contents.now) saves.now) }
{
    let mut changes = Changes::new(alloc);
    for save in saves.as_slice() {
        push_restored(&mut changes, contents, save)?;
    }
    Ok(changes)
}

// Takes a message that changes a document which is there, and answers whether it is such a one; another one changes
// nothing.
fn change_in_place(contents: &mut CountedContents, message: &DataMsg) -> Result<bool, Mem>
    ensures fits { IfOk result (λ put. put ≡ true → refusal (at key_cmp contents.old (said message.now).0) (said message.now).1 ≡ None) }
    ensures ok { IfOk result (λ put. put ≡ true → contents.new ≡ set key_cmp contents.old (said message.now).0
        (taken text_cmp (at key_cmp contents.old (said message.now).0) (said message.now).1)) }
    ensures other { IfOk result (λ put. put ≡ false → contents.new ≡ contents.old) }
    ensures err { OnErr result (contents.new ≡ contents.old) }
{
    match message {
        DataMsg::Changed {
            key,
            fields,
            cleared,
        } => contents.change(key, fields, cleared.as_slice()),
        DataMsg::Added { .. } | DataMsg::Removed { .. } => Ok(false),
    }
}

/// Takes a message about a document.
pub(crate) fn take(contents: &mut CountedContents, message: &DataMsg) -> Result<(), ViewFault>
    ensures fits { IsFitting (at key_cmp contents.old (said message.now).0) (said message.now).1 result }
    ensures ok { OnOk result (contents.new ≡ set key_cmp contents.old (said message.now).0
        (taken text_cmp (at key_cmp contents.old (said message.now).0) (said message.now).1)) }
    ensures err { OnErr result (contents.new ≡ contents.old) }
{
    if change_in_place(contents, message)? {
        return Ok(());
    }
    let key = key_of(message);
    match taken(contents.get(key), message)? {
        None => {
            drop(contents.remove(key));
            Ok(())
        }
        Some(doc) => {
            contents.put(key.copy()?, doc)?;
            Ok(())
        }
    }
}
