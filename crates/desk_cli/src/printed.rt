//! The commands that need no database: `token` reports a cell, and `cover` the cells of a rectangle. The
//! cells are those of the S2 geometry library: a leaf is a cell of its finest level, and a token is a cell's
//! name in hex digits.

ghost use Rattle.std.specs.Prelude.{◌≡◌, ◌⊎◌, List, IfOk, IfErr, OnOk, Ok, Err, length, string_bytes};
ghost use Rattle.std.specs.Io.KnownBytes.{Appends};
ghost use Rattle.s2_cellid.specs.Cell.{read_token};
ghost use Rattle.s2_cover.specs.Covers.{leaves_of, IsRanges, rect_or_fault};
ghost use Rattle.s2_cover.specs.declared.spans.Span.{Span};
ghost use Rattle.desk_cli.specs.Exits.{ending, IsCoverText, IsPrinted, IsTokenOrCover, IsRectReported, IsShown, IsTextOf, rect_parts, reported_of_token, IsPartlyWritten};
ghost use Rattle.desk_cli.specs.Exits as spec;
ghost use Rattle.desk_cli.specs.declared.failure.ErrorCode.TheVariants.{Memory, Write};

use crate::failure::{ErrorCode, ExitReport, report_exit};
use crate::line::{CoverArgs, Line};
use cell_picture::picture_of;
use io_ends::write_whole;
use s2_cellid::CellId;
use s2_cover::{Cover, Rect, cover};
use s2_hilbert::leaf_at;
use std::alloc::{AllocError, Global};
use std::io::Write;
use volume4d::MAX_COVER;

/// Carries out `line`, which is `token` or `cover`: prints the result to `output`, or the error code to
/// `errors`. A write error at `output` has the code `write`; one at `errors` doesn't change the exit status.
pub fn print_line<W: Write, E: Write>(
    alloc: Global,
    line: &Line,
    output: &mut W,
    errors: &mut E,
) -> ExitReport<E>
    requires { IsTokenOrCover line.now }
    ensures { IsPrinted line.now (ending result (E.contents errors.old) (E.contents errors.new))
        (W.contents output.old) (W.contents output.new) }
{
    report_exit(errors, print_output(alloc, line, output))
}

// Prints the result of `line`, which is `token` or `cover`. An error if its arguments have no result, memory
// runs out or a write fails; a part of the result may be printed only if a write fails.
fn print_output<W: Write>(alloc: Global, line: &Line, output: &mut W) -> Result<(), ErrorCode>
    requires { IsTokenOrCover line.now }
    ensures { IsShown line.now result (W.contents output.old) (W.contents output.new) }
{
    write_text(output, &output_text(alloc, line)?)
}

/// Writes `text` to `output`, up to the first write that fails.
///
/// # Errors
///
/// `Write` if a write fails.
#[tactic(auto, using(crate::proofs::WrittenLemmas::begun_part))]
pub fn write_text<W: Write>(output: &mut W, text: &str) -> Result<(), ErrorCode>
    ensures ok { OnOk result (Appends (W.contents output.old) (W.contents output.new) text.now) }
    ensures err { IfErr result (λ f. (f ≡ Write)
        × IsPartlyWritten text.now (W.contents output.old) (W.contents output.new)) }
{
    write_whole(output, text.as_bytes())?;
    Ok(())
}

// The result of `line`, which is `token` or `cover`, as it is printed. An error if its arguments have no
// result, or if memory runs out.
fn output_text(alloc: Global, line: &Line) -> Result<String, ErrorCode>
    requires { IsTokenOrCover line.now }
    ensures ok { IfOk result (λ text. IsTextOf line.now (Ok (string_bytes text))) }
    ensures err { IfErr result (λ f. (f ≡ Memory) ⊎ IsTextOf line.now (Err f)) }
{
    match line {
        Line::Token(token) => token_text(alloc, token),
        Line::Cover(cover_args) => cover_text(alloc, cover_args),
        _ => unreachable!(),
    }
}

// The line that describes the cell of the S2 token `token`. An error if it is no such token, or memory runs
// out.
fn token_text(alloc: Global, token: &str) -> Result<String, ErrorCode>
    ensures ok { IfOk result (λ text. Ok (string_bytes text) ≡ reported_of_token (read_token token.now)) }
    ensures err { IfErr result (λ f. (f ≡ Memory) ⊎ (Err f ≡ reported_of_token (read_token token.now))) }
{
    let cell = CellId::from_token(token.as_bytes())?;
    Ok(cell_line(alloc, &cell)?)
}

// The line that describes a cell: its token, its face, its level, and the tokens of its first and last leaf.
// An error if memory runs out.
#[tactic(auto, unfolding(crate::specs::Exits::cell_line))]
fn cell_line(alloc: Global, cell: &CellId) -> Result<String, AllocError>
    ensures { IfOk result (λ text. string_bytes text ≡ spec.cell_line cell.now) }
{
    let face = cell.face();
    let level = cell.level();
    let first = CellId::of_leaf(leaf_at(cell.first()));
    let last = CellId::of_leaf(leaf_at(cell.last()));
    format!(in alloc; "{cell} face {face} level {level} leaves {first} {last}\n")
}

// The cells that cover a rectangle: a list of them, or a picture if that is asked for. An error if the
// numbers are no rectangle, if more than `MAX_COVER` cells are needed, or if memory runs out.
fn cover_text(alloc: Global, cover_args: &CoverArgs) -> Result<String, ErrorCode>
    ensures ok { IfOk result (λ text. IsRectReported cover_args.now.is_picture
        (rect_or_fault (rect_parts cover_args.now)) (Ok (string_bytes text))) }
    ensures err { IfErr result (λ f. (f ≡ Memory)
        ⊎ IsRectReported cover_args.now.is_picture (rect_or_fault (rect_parts cover_args.now)) (Err f)) }
{
    let rect = Rect::try_new(
        cover_args.face,
        cover_args.i_min,
        cover_args.i_max,
        cover_args.j_min,
        cover_args.j_max,
        cover_args.level,
    )?;
    let cover = cover(alloc, &rect, MAX_COVER)?;
    if cover_args.is_picture {
        Ok(picture_of(alloc, &rect, cover.cells())?)
    } else {
        Ok(cells_text(alloc, &cover)?)
    }
}

// The token of each cell of a cover on its own line, then one line with the numbers of cells and of ranges,
// the runs of leaves that follow each other on the S2 curve. An error if memory runs out.
#[tactic(auto, unfolding(crate::specs::Exits::cover_lines))]
fn cells_text(alloc: Global, cover: &Cover) -> Result<String, AllocError>
    ensures { IfOk result (λ text. (spans : List Span) × IsRanges (leaves_of cover.now.ids) spans
        × (string_bytes text ≡ spec.cover_lines cover.now.ids (length spans))) }
{
    let mut text = tokens_text(alloc, cover.cells())?;
    let cells = cover.cells().len();
    let ranges = cover.ranges()?;
    let count = ranges.spans().len();
    text.push_str(&format!(in alloc; "{cells} cells, {count} ranges\n")?)?;
    Ok(text)
}

// The token of each cell on its own line, in their order. An error if memory runs out.
fn tokens_text(alloc: Global, cells: &[CellId]) -> Result<String, AllocError>
    ensures { IfOk result (λ text. string_bytes text ≡ spec.token_lines cells.now) }
{
    let mut text = String::new(alloc);
    for cell in cells {
        text.push_str(cell.token().as_str())?;
        text.push_str("\n")?;
    }
    Ok(text)
}
