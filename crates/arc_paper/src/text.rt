//! The text of the command `paper`: what each page is, and how the lists stand at the end.
ghost use Rattle.std.specs.Prelude.{◌≡◌, ◌+◌, ◌<◌, ◌≤◌, ◌++◌, IfOk, OnOk, OnErr, length, string_bytes};
ghost use Rattle.arc_paper.specs.Arc.{after, fresh, hits};
ghost use Rattle.arc_paper.specs.Cache.{IsCapacity};
ghost use Rattle.arc_paper.specs.Text.{end_line, page_line, page_lines, sizes_words, pages_text};

use crate::paper::Paper;
use key_table::NoMemory;
use std::alloc::{AllocError, Global};
use std::fmt::Write;

/// Appends a line for each page, `hit` or `miss`, and two lines on the end, for a cache of `c` pages, from 1 to
/// [`MOST_PAGES`](crate::MOST_PAGES). After [`NoMemory`] `out` is as before.
pub fn paper_text(alloc: Global, c: u32, pages: &[u64], out: &mut Vec<u8>) -> Result<(), NoMemory>
    requires { IsCapacity c }
    ensures ok { OnOk result (out.new.items ≡ out.old.items ++ pages_text c pages.now) }
    ensures err { OnErr result (out.new.items ≡ out.old.items) }
{
    let text = written(alloc, c, pages)?;
    if out.is_empty() {
        *out = text.into_bytes();
    } else {
        out.extend_from_slice(text.as_bytes())?;
    }
    Ok(())
}

/// The text of these pages.
fn written(alloc: Global, c: u32, pages: &[u64]) -> Result<String, NoMemory>
    requires { IsCapacity c }
    ensures { IfOk result (λ text. string_bytes text ≡ pages_text c pages.now) }
{
    let mut paper = Paper::new(alloc, c)?;
    let mut text = String::new(alloc);
    let hits = write_pages(&mut text, &mut paper, pages)?;
    write_end(&mut text, c, &paper, hits)?;
    text.push_str("end 0\n")?;
    Ok(text)
}

/// Asks for each page, appends its line, and counts the hits.
fn write_pages(text: &mut String, paper: &mut Paper, pages: &[u64]) -> Result<u64, AllocError>
    ensures lines { OnOk result (string_bytes text.new
        ≡ string_bytes text.old ++ page_lines paper.old.capacity 0 pages.now paper.old.arc) }
    ensures moved { OnOk result (paper.new
        ≡ record paper.old { arc = after paper.old.capacity pages.now paper.old.arc }) }
    ensures counted { IfOk result (λ n. n ≡ hits paper.old.capacity pages.now paper.old.arc) }
{
    let mut hits = 0;
    for (number, x) in pages.iter().enumerate() {
        let hit = paper.page(*x);
        write_page(text, number, hit)?;
        if hit {
            hits += 1;
        }
    }
    Ok(hits)
}

/// Appends a page's line.
fn write_page(text: &mut String, number: usize, hit: bool) -> Result<(), AllocError>
    ensures { OnOk result (string_bytes text.new ≡ string_bytes text.old ++ page_line number hit) }
{
    let word = if hit { "hit" } else { "miss" };
    write!(text, "{number} {word}\n")
}

/// Appends the line of the target, the sizes and the hits.
fn write_end(text: &mut String, c: u32, paper: &Paper, hits: u64) -> Result<(), AllocError>
    ensures { OnOk result (string_bytes text.new
        ≡ string_bytes text.old ++ end_line c paper.now.arc hits) }
{
    let p = paper.p();
    write!(text, "paper c {c} p {p}")?;
    write_sizes(text, &paper.sizes())?;
    write!(text, " hits {hits}\n")
}

/// Appends the sizes of T1, T2, B1 and B2.
fn write_sizes(text: &mut String, sizes: &[u32; 4]) -> Result<(), AllocError>
    ensures { OnOk result (string_bytes text.new ≡ string_bytes text.old ++ sizes_words sizes.now) }
{
    let [t1, t2, b1, b2] = *sizes;
    write!(text, " t1 {t1} t2 {t2} b1 {b1} b2 {b2}")
}
