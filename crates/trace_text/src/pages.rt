//! Lists of pages: one number on each line.
ghost use Rattle.std.specs.Prelude.{◌≡◌, ◌≤◌, IfErr, IfOk, OnOk, length, vec_len};
ghost use Rattle.trace_text.specs.Grammar.{lines_of, longest_text};
ghost use Rattle.trace_text.specs.Pages.{AddsPage, ArePages, IsPageLineCause, IsPageLinesCause, IsPageRead, IsPageText, IsPagesCause};

use crate::fault::{Kind, TraceFault};
use crate::fields::number;
use crate::parts::Parts;
use crate::reader::{LONGEST_TEXT, fault_at, line_past};
use crate::words::LineFault;
use std::alloc::Global;

/// The most pages of a text.
const MOST_PAGES: usize = 1_000_000;

/// The greatest number of a page.
const MOST_NUMBER: u64 = 1 << 62;

/// Reads a list of pages: one page number on each line, from 0 to 2^62; empty lines and lines that begin with `#` are passed over. Its
/// text and its faults are those of `specs/Pages.antt`: a `Bad` names the first line at fault and what is wrong with it, which is one
/// of [`Kind::Shape`], [`Kind::Number`], [`Kind::Count`] and [`Kind::Length`].
pub fn read_pages(alloc: Global, bytes: &[u8]) -> Result<Vec<u64>, TraceFault>
    ensures read { IfOk result (λ pages. IsPageText bytes.now pages.items) }
    ensures fault { IfErr result (IsPagesCause bytes.now) }
{
    if bytes.len() > LONGEST_TEXT {
        return Err(TraceFault::Bad {
            line: line_past(bytes),
            kind: Kind::Length,
        });
    }
    read_page_lines(alloc, bytes)
}

/// The pages of all lines, or the first fault of one.
fn read_page_lines(alloc: Global, text: &[u8]) -> Result<Vec<u64>, TraceFault>
    requires { length text.now ≤ longest_text }
    ensures read { IfOk result (λ pages. ArePages (lines_of text.now) pages.items) }
    ensures fault { IfErr result (IsPageLinesCause (lines_of text.now)) }
{
    let mut pages = Vec::new(alloc);
    let mut lines = Parts::new(text, b'\n');
    let mut number = 0;
    while let Some(line) = lines.next() {
        number += 1;
        if let Err(fault) = add_page(&mut pages, line) {
            return Err(fault_at(number, fault));
        }
    }
    Ok(pages)
}

/// Adds the page of a line. Of an `Err` no line follows.
fn add_page(pages: &mut Vec<u64>, line: &[u8]) -> Result<(), LineFault>
    requires { vec_len pages.old ≤ 1000000 }
    ensures added { OnOk result (AddsPage pages.old.items line.now pages.new.items) }
    ensures fault { IfErr result (IsPageLineCause (length pages.old.items) line.now) }
{
    if line.is_empty() || line[0] == b'#' {
        return Ok(());
    }
    let page = page_of(line).map_err(LineFault::Wrong)?;
    if pages.len() == MOST_PAGES {
        return Err(LineFault::Wrong(Kind::Count));
    }
    pages.push(page)?;
    Ok(())
}

/// The page of a line.
fn page_of(line: &[u8]) -> Result<u64, Kind>
    ensures { IsPageRead line.now result }
{
    let mut fields = Parts::new(line, b' ');
    let Some(_first) = fields.next() else {
        return Err(Kind::Shape);
    };
    match fields.next() {
        Some(_second) => Err(Kind::Shape),
        None => number(line, 0, MOST_NUMBER).ok_or(Kind::Number),
    }
}
