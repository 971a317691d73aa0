//! Pictures of covers (SVG): a grid of the face around a rectangle, the cells of its cover, the curve through
//! them, and a legend below. The part with the face is a nested SVG whose unit is a leaf. Each function fails
//! only if memory runs out.

ghost use Rattle.std.specs.Prelude.{◌≡◌, ◌∷◌, ◌<◌, ◌/◌, IfOk, string_bytes};
ghost use Rattle.cell_picture.specs.Picture.{place_of, IsPicture};
ghost use Rattle.cell_picture.specs.Picture as spec;

use crate::frame::{Frame, GridSquare, WIDTH};
use s2_cellid::CellId;
use s2_cover::Rect;
use std::alloc::{AllocError, Global};

/// The style sheet of a picture.
const STYLE: &str = "<style>\
    rect,path{fill:none}\
    .face{fill:#fff}.squares{stroke:#ddd}\
    .cell{fill:#9ecae1;fill-opacity:.5;stroke:#3182bd}\
    .asked{stroke:#d62728}\
    .way,.jump{stroke:#222}\
    text{font:14px sans-serif;stroke:none}\
    </style>\n";

/// The legend, below the grid.
const LEGEND: &str = "\
    <path class=\"cell\" d=\"M12 18H48\"/>\
    <text x=\"60\" y=\"23\">a cell of the cover, which tells its token when it is pointed at</text>\n\
    <path class=\"asked\" d=\"M12 38H48\"/>\
    <text x=\"60\" y=\"43\">the rectangle that was asked for</text>\n\
    <path class=\"way\" d=\"M12 58H48\"/>\
    <text x=\"60\" y=\"63\">the curve, from a cell to the next in its order</text>\n\
    <path class=\"jump\" stroke-dasharray=\"4\" d=\"M12 78H48\"/>\
    <text x=\"60\" y=\"83\">the same, where it goes through leaves of no cell</text>\n";

/// The height of the legend, in pixels.
const LEGEND_HEIGHT: u64 = 90;

/// The SVG text of a picture of `rect` and of `cells`, its cover in the order of the curve.
///
/// # Errors
///
/// `AllocError` if memory runs out.
pub fn picture_of(alloc: Global, rect: &Rect, cells: &[CellId]) -> Result<String, AllocError>
    ensures { IfOk result (λ text. IsPicture rect.now cells.now (string_bytes text)) }
{
    let frame = Frame::around(rect);
    let mut text = picture_start(alloc, &frame, rect)?;
    text.push_str(&grid_lines(alloc, &frame)?)?;
    text.push_str(&cell_squares(alloc, &frame, cells)?)?;
    text.push_str(&requested_rectangle(alloc, &frame, rect)?)?;
    text.push_str(&curve_lines(alloc, &frame, cells)?)?;
    text.push_str(&picture_end(alloc, &frame)?)?;
    Ok(text)
}

// The text before the grid: the start of the SVG, its title and style, and the start of the nested SVG with
// the background of the face. The SVG is as high as the face and the legend.
fn picture_start(alloc: Global, frame: &Frame, rect: &Rect) -> Result<String, AllocError>
    ensures { IfOk result (λ text. string_bytes text ≡ spec.picture_start frame.now rect.now) }
{
    let mut text = svg_start(alloc, frame.pixel_height().saturating_add(LEGEND_HEIGHT))?;
    text.push_str(&title(alloc, rect)?)?;
    text.push_str(STYLE)?;
    text.push_str(&part_start(alloc, frame)?)?;
    text.push_str(&background(alloc, frame)?)?;
    Ok(text)
}

// The start tag of a picture that is `WIDTH` pixels wide and `height` pixels high.
#[tactic(auto, unfolding(crate::specs::Picture::opening_text))]
fn svg_start(alloc: Global, height: u64) -> Result<String, AllocError>
    ensures { IfOk result (λ text. string_bytes text ≡ spec.opening_text height) }
{
    format!(in alloc;
        "<svg xmlns=\"http://www.w3.org/2000/svg\" width=\"{WIDTH}\" viewBox=\"0 0 {WIDTH} {height}\">\n"
    )
}

// The start tag of the nested SVG that shows the face: its size in pixels, and its coordinates in leaves.
#[tactic(auto, unfolding(crate::specs::Picture::part_start))]
fn part_start(alloc: Global, frame: &Frame) -> Result<String, AllocError>
    ensures { IfOk result (λ text. string_bytes text ≡ spec.part_start frame.now) }
{
    let Frame { width, height, .. } = *frame;
    let line = frame.line_width();
    let tall = frame.pixel_height();
    format!(in alloc;
        "<svg width=\"{WIDTH}\" height=\"{tall}\" viewBox=\"0 0 {width} {height}\" \
        stroke-width=\"{line}\">\n"
    )
}

// The background of the face: a rectangle as large as the frame.
#[tactic(auto, unfolding(crate::specs::Picture::face_text))]
fn background(alloc: Global, frame: &Frame) -> Result<String, AllocError>
    ensures { IfOk result (λ text. string_bytes text ≡ spec.face_text frame.now) }
{
    let Frame { width, height, .. } = *frame;
    format!(in alloc; "<rect class=\"face\" width=\"{width}\" height=\"{height}\"/>\n")
}

// The title of a picture of `rect`.
#[tactic(auto, unfolding(crate::specs::Picture::title_text))]
fn title(alloc: Global, rect: &Rect) -> Result<String, AllocError>
    ensures { IfOk result (λ text. string_bytes text ≡ spec.title_text rect.now) }
{
    let face = rect.face();
    let level = rect.level();
    format!(in alloc;
        "<title>The cells of a rectangle on face {face}, widened to whole squares of level {level}</title>\n"
    )
}

// The text after the curve: the end of the face, and the legend. The legend is outside of the nested SVG,
// since browsers don't draw text at the scale of leaves.
fn picture_end(alloc: Global, frame: &Frame) -> Result<String, AllocError>
    ensures { IfOk result (λ text. string_bytes text ≡ spec.picture_end frame.now) }
{
    let tall = frame.pixel_height();
    let mut text = format!(in alloc;
        "</svg>\n<g transform=\"translate(0 {tall})\" stroke-width=\"2\">\n"
    )?;
    text.push_str(LEGEND)?;
    text.push_str("</g>\n</svg>\n")?;
    Ok(text)
}

// The grid of the face: the lines between squares with sides of `frame.step` leaves, as one path.
fn grid_lines(alloc: Global, frame: &Frame) -> Result<String, AllocError>
    requires { 0 < frame.now.step }
    ensures { IfOk result (λ text. string_bytes text ≡ spec.grid_text frame.now) }
{
    let Frame {
        width,
        height,
        step,
        ..
    } = *frame;
    let mut text = String::from_str(alloc, "<path class=\"squares\" d=\"")?;
    text.push_str(&vertical_lines(alloc, width, height, step)?)?;
    text.push_str(&horizontal_lines(alloc, width, height, step)?)?;
    text.push_str("\"/>\n")?;
    Ok(text)
}

// The vertical lines of a grid that is `width` leaves wide and `height` high, one each `step` leaves, from
// the left edge on; the right edge has none.
fn vertical_lines(alloc: Global, width: u64, height: u64, step: u64) -> Result<String, AllocError>
    requires { 0 < step }
    ensures { IfOk result (λ text. string_bytes text ≡ spec.vertical_lines_text step height (width / step)) }
{
    let mut text = String::new(alloc);
    for place in 0..width / step {
        let x = place.saturating_mul(step);
        text.push_str(&vertical_line(alloc, x, height)?)?;
    }
    Ok(text)
}

// The path of a vertical line at `x`, from the upper edge down to `height`, in leaves.
#[tactic(auto, unfolding(crate::specs::Picture::vertical_line_text))]
fn vertical_line(alloc: Global, x: u64, height: u64) -> Result<String, AllocError>
    ensures { IfOk result (λ text. string_bytes text ≡ spec.vertical_line_text x height) }
{
    format!(in alloc; "M{x} 0V{height}")
}

// The horizontal lines of a grid that is `width` leaves wide and `height` high, one each `step` leaves, from
// the lower edge up; the upper edge has none.
fn horizontal_lines(alloc: Global, width: u64, height: u64, step: u64) -> Result<String, AllocError>
    requires { 0 < step }
    ensures { IfOk result (λ text. string_bytes text ≡ spec.horizontal_lines_text step width height (height / step)) }
{
    let mut text = String::new(alloc);
    for place in 0..height / step {
        let y = height.saturating_sub(place.saturating_mul(step));
        text.push_str(&horizontal_line(alloc, y, width)?)?;
    }
    Ok(text)
}

// The path of a horizontal line at `y`, from the left edge to `width`, in leaves.
#[tactic(auto, unfolding(crate::specs::Picture::level))]
fn horizontal_line(alloc: Global, y: u64, width: u64) -> Result<String, AllocError>
    ensures { IfOk result (λ text. string_bytes text ≡ spec.level y width) }
{
    format!(in alloc; "M0 {y}H{width}")
}

// The squares of the cells as SVG, in the order of `cells`.
fn cell_squares(alloc: Global, frame: &Frame, cells: &[CellId]) -> Result<String, AllocError>
    ensures { IfOk result (λ text. string_bytes text ≡ spec.cells_text frame.now cells.now) }
{
    let mut text = String::new(alloc);
    for cell in cells {
        text.push_str(&cell_square(alloc, frame, cell)?)?;
    }
    Ok(text)
}

// The square of a cell as SVG, with the cell's token as its title.
#[tactic(auto, unfolding(crate::specs::Picture::cell_text))]
fn cell_square(alloc: Global, frame: &Frame, cell: &CellId) -> Result<String, AllocError>
    ensures { IfOk result (λ text. string_bytes text
        ≡ spec.cell_text (place_of frame.now cell.now) cell.now) }
{
    let GridSquare { x, y, side } = frame.place_of(cell);
    format!(in alloc;
        "<rect class=\"cell\" x=\"{x}\" y=\"{y}\" width=\"{side}\" height=\"{side}\">\
        <title>{cell}</title></rect>\n"
    )
}

// The outline of the rectangle as it was requested, not widened to whole squares of its level. The greatest
// coordinates are included, so its sides are one leaf more than the differences.
#[tactic(auto, unfolding(crate::specs::Picture::requested_rectangle_text))]
fn requested_rectangle(alloc: Global, frame: &Frame, rect: &Rect) -> Result<String, AllocError>
    ensures { IfOk result (λ text. string_bytes text ≡ spec.requested_rectangle_text frame.now rect.now) }
{
    let x = u64::from(rect.i_min()).saturating_sub(frame.i);
    let y = frame.depth_of(u64::from(rect.j_max()).saturating_add(1));
    let width = u64::from(rect.i_max().saturating_sub(rect.i_min())).saturating_add(1);
    let height = u64::from(rect.j_max().saturating_sub(rect.j_min())).saturating_add(1);
    let line = frame.line_width().saturating_mul(2);
    format!(in alloc;
        "<rect class=\"asked\" x=\"{x}\" y=\"{y}\" width=\"{width}\" height=\"{height}\" \
        stroke-width=\"{line}\"/>\n"
    )
}

// The curve from cell to cell: a solid path between cells that are adjacent on the curve, and a dashed one
// between the others.
fn curve_lines(alloc: Global, frame: &Frame, cells: &[CellId]) -> Result<String, AllocError>
    ensures { IfOk result (λ text. string_bytes text ≡ spec.curve_text frame.now cells.now) }
{
    let mut text = String::from_str(alloc, "<path class=\"way\" d=\"")?;
    text.push_str(&lines_along(alloc, frame, cells, true)?)?;
    let dash = frame.line_width().saturating_mul(4);
    text.push_str(&format!(in alloc;
        "\"/>\n<path class=\"jump\" stroke-dasharray=\"{dash}\" d=\""
    )?)?;
    text.push_str(&lines_along(alloc, frame, cells, false)?)?;
    text.push_str("\"/>\n")?;
    Ok(text)
}

// The lines between successive cells: between those that are adjacent on the curve if `adjacent` is true, and
// between the others if it is false.
fn lines_along(
    alloc: Global,
    frame: &Frame,
    cells: &[CellId],
    adjacent: bool,
) -> Result<String, AllocError>
    ensures { IfOk result (λ text. string_bytes text ≡ spec.steps_text frame.now adjacent cells.now) }
{
    match cells.split_first() {
        Some((first, others)) => lines_from(alloc, frame, first, others, adjacent),
        None => Ok(String::new(alloc)),
    }
}

// The lines of `lines_along` from the cell `first` along `others`, in their order. `adjacent` is as there.
fn lines_from(
    alloc: Global,
    frame: &Frame,
    first: &CellId,
    others: &[CellId],
    adjacent: bool,
) -> Result<String, AllocError>
    ensures { IfOk result (λ text. string_bytes text
        ≡ spec.steps_from frame.now adjacent first.now others.now) }
{
    let mut text = String::new(alloc);
    let mut from = *first;
    for to in others {
        text.push_str(&line_if_drawn(alloc, frame, &from, to, adjacent)?)?;
        from = *to;
    }
    Ok(text)
}

// The line between two successive cells if it is to be drawn, else the empty text. If `adjacent` is true it
// is drawn between cells that are adjacent on the curve, and if false between others.
fn line_if_drawn(
    alloc: Global,
    frame: &Frame,
    from: &CellId,
    to: &CellId,
    adjacent: bool,
) -> Result<String, AllocError>
    ensures { IfOk result (λ text. string_bytes text ≡ spec.step_text frame.now adjacent from.now to.now) }
{
    let are_adjacent = from.last().saturating_add(1) == to.first();
    let is_drawn = if adjacent {
        are_adjacent
    } else {
        !are_adjacent
    };
    if is_drawn {
        line_between(alloc, frame.place_of(from), frame.place_of(to))
    } else {
        Ok(String::new(alloc))
    }
}

// The path of a line from the centre of the square `from` to the centre of the square `to`.
#[tactic(auto, unfolding(crate::specs::Picture::line_text))]
fn line_between(alloc: Global, from: GridSquare, to: GridSquare) -> Result<String, AllocError>
    ensures { IfOk result (λ text. string_bytes text ≡ spec.line_text from to) }
{
    let (x, y) = from.middle();
    let (x_to, y_to) = to.middle();
    format!(in alloc; "M{x} {y}L{x_to} {y_to}")
}
