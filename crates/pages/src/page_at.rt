// A page of a table where it lies.
ghost use Rattle.std.specs.Prelude.{◌≡◌, ◌≤◌, ◌<◌, length, drop, get_or, slice_get};
ghost use Rattle.pages.specs.Layout.{page_entries, pages_in, pages_of, page_at, zero_entry, words_of_entries, words_of_page};
ghost use Rattle.pages.specs.Summary.{in_use};
ghost use Rattle.pages.specs.Words.{all_zero};

use crate::words::are_zero;
use crate::{Entry, EntryAt, Page};
use std::array;
use std::marker::Model;

// The words of a page. A clause sees the page that they are.
#[derive(Drop)]
pub struct PageAt<'a> {
    words: &'a [u16],
}

impl<'a> Model for PageAt<'a> {
    ghost use Rattle.std.specs.Prelude.{◌≡◌, length};
    ghost use Rattle.pages.specs.Layout.{page_words, page_of};
    ghost use Rattle.pages.specs.declared.Page.{Page};

    ghost Value = { Page };

    ghost view = { λ x. page_of x.words.now };

    ghost invariant = { λ x. length x.words.now ≡ page_words };
}

impl<'a> PageAt<'a> {
    pub fn of(t: &'a [u16], p: usize) -> PageAt<'a>
        requires { p < pages_in t.now }
        ensures { result ≡ page_at t.now p }
    {
        let start = p * Page::WORDS;
        PageAt {
            words: &t[start..start + Page::WORDS],
        }
    }

    // None past the last page.
    pub fn get(t: &'a [u16], p: usize) -> Option<PageAt<'a>>
        ensures { result ≡ slice_get (pages_of t.now) p }
    {
        if p < t.len() / Page::WORDS {
            Some(PageAt::of(t, p))
        } else {
            None
        }
    }

    pub fn level(&self) -> u16
        ensures { result ≡ self.now.level }
    {
        self.words[0]
    }

    pub fn count(&self) -> u16
        ensures { result ≡ self.now.count }
    {
        self.words[1]
    }

    // How many entries are in use: on a spoilt table the count may be above eight.
    pub fn in_use(&self) -> usize
        ensures { (result ≤ page_entries) × (result ≡ length (in_use self.now)) }
    {
        usize::from(self.words[1]).min(Page::ENTRIES)
    }

    pub fn entry(&self, i: usize) -> EntryAt<'a>
        requires { i < page_entries }
        ensures { result ≡ get_or self.now.entries i zero_entry }
    {
        let start = 2 + i * Entry::WORDS;
        EntryAt::of(&self.words[start..start + Entry::WORDS])
    }

    pub fn read(&self) -> Page
        ensures { result ≡ self.now }
    {
        Page {
            level: self.words[0],
            count: self.words[1],
            entries: array::from_fn(|i| self.entry(i).read()),
        }
    }

    pub fn is_zero(&self) -> bool
        ensures { result ≡ all_zero (words_of_page self.now) }
    {
        are_zero(self.words)
    }

    // The entries after those in use.
    pub fn unused_is_zero(&self) -> bool
        ensures { result ≡ all_zero (words_of_entries (drop self.now.count self.now.entries)) }
    {
        are_zero(&self.words[2 + self.in_use() * Entry::WORDS..])
    }
}
