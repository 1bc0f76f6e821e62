// An entry of a page where it lies.
#![tactic(auto, unfolding(crate::specs::Layout::box_at, crate::specs::Layout::entry_at))]

ghost use Rattle.std.specs.Prelude.{◌≡◌, length};
ghost use Rattle.pages.specs.Layout.{entry_words, entry_at, words_of_entry};
ghost use Rattle.pages.specs.Words.{same_words};

use crate::Entry;
use crate::reading::box_at;
use ground::Box;
use std::marker::Model;

// The words of an entry. A clause sees the entry that they are.
#[derive(Drop)]
pub struct EntryAt<'a> {
    words: &'a [u16],
}

impl<'a> Model for EntryAt<'a> {
    ghost use Rattle.std.specs.Prelude.{◌≡◌, length};
    ghost use Rattle.pages.specs.Layout.{entry_words, entry_at};
    ghost use Rattle.pages.specs.declared.Entry.{Entry};

    ghost Value = { Entry };

    ghost view = { λ e. entry_at e.words.now 0 };

    ghost invariant = { λ e. length e.words.now ≡ entry_words };
}

impl<'a> EntryAt<'a> {
    pub fn of(words: &'a [u16]) -> EntryAt<'a>
        requires { length words.now ≡ entry_words }
        ensures { result ≡ entry_at words.now 0 }
    {
        EntryAt { words }
    }

    pub fn words(&self) -> &'a [u16]
        ensures { (result.now ≡ words_of_entry self.now) × (length result.now ≡ entry_words) }
    {
        self.words
    }

    pub fn place(&self) -> Box
        ensures { result ≡ self.now.place }
    {
        box_at(self.words, 0)
    }

    pub fn gust(&self) -> u16
        ensures { result ≡ self.now.gust }
    {
        self.words[Entry::GUST]
    }

    pub fn weakest(&self) -> u16
        ensures { result ≡ self.now.weakest }
    {
        self.words[Entry::WEAKEST]
    }

    pub fn child(&self) -> u16
        ensures { result ≡ self.now.child }
    {
        self.words[Entry::CHILD]
    }

    pub fn strongest(&self) -> Box
        ensures { result ≡ self.now.strongest }
    {
        box_at(self.words, Entry::STRONGEST)
    }

    pub fn union(&self) -> Box
        ensures { result ≡ self.now.union }
    {
        box_at(self.words, Entry::UNION)
    }

    pub fn read(&self) -> Entry
        ensures { result ≡ self.now }
    {
        Entry {
            place: self.place(),
            gust: self.gust(),
            weakest: self.weakest(),
            child: self.child(),
            strongest: self.strongest(),
            union: self.union(),
        }
    }

    // Whether it has the words of another.
    pub fn is(&self, other: Entry) -> bool
        ensures { result ≡ same_words (words_of_entry self.now) (words_of_entry other) }
    {
        self.read() == other
    }
}
