//! Steps are looked for that leave some books.
use crate::comparing::{same, same_at};
use crate::logged::keeping::text_of;
use crate::order::books::{EXPLAINED, HubBooks, UNEXPLAINED};
use inst_books::{can_open, read_books};
use inst_fixtures::{settings, settings_with};
use inst_journal::Journal;
use inst_order::{interleaving, interleaving_from};
use inst_settings::Settings;
use std::alloc::Global;
use std::process::Abort;
use std::test::Fail;

/// Returns the journals of these lines.
fn journals_of(alloc: Global, settings: &Settings, lines: &[&[u8]]) -> Result<Vec<Journal>, Fail> {
    Ok(read_books(alloc, settings, &text_of(alloc, lines)?)?)
}

/// Returns how many steps explain the books with this margin, if some do.
fn steps_of(
    rt: &(impl Abort + AllocGlobal),
    margin: u32,
    books: &HubBooks,
) -> Result<Option<usize>, Fail> {
    let alloc = rt.alloc();
    let (opening, lines) = *books;
    let settings = settings_with(alloc, 2, margin)?;
    let journals = journals_of(alloc, &settings, lines)?;
    let found = match opening {
        None => interleaving(alloc, &settings, &journals)?,
        Some(lines) => {
            let opening = journals_of(alloc, &settings, lines)?;
            assert!(rt; can_open(alloc, &settings, &opening)?);
            interleaving_from(alloc, &settings, &opening, &journals)?
        }
    };
    Ok(found.map(|steps| steps.len()))
}

#[test]
fn books_of_a_hub_are_explained(rt: HostRuntime) -> Result<(), Fail> {
    for (nth, (books, count)) in EXPLAINED.iter().enumerate() {
        same_at(&rt, nth, steps_of(&rt, 0, books)?, Some(*count));
        same_at(&rt, nth, steps_of(&rt, 9_999, books)?, Some(*count)); // the most margin
    }
    Ok(())
}

#[test]
fn other_books_are_not_explained(rt: HostRuntime) -> Result<(), Fail> {
    for (nth, books) in UNEXPLAINED.iter().enumerate() {
        same_at(&rt, nth, steps_of(&rt, 0, books)?, None);
    }
    Ok(())
}

#[test]
fn a_missing_journal(rt: HostRuntime) -> Result<(), Fail> {
    let settings = settings(rt.alloc())?;
    let mut journals = journals_of(rt.alloc(), &settings, &[])?;
    let last = journals.pop();
    let found = interleaving(rt.alloc(), &settings, &journals)?;
    same(&rt, (last.is_some(), found.is_none()), (true, true));
    Ok(())
}
