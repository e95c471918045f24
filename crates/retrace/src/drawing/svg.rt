//! A picture as SVG, which any browser shows.

ghost use Rattle.std.specs.Prelude.{◌≡◌, IfErr};
ghost use Rattle.value.specs.Refusals.{out_of_memory};

use crate::drawing::arrow::Picture;
use crate::drawing::canvas::Canvas;
use crate::drawing::layout::Layout;
use crate::drawing::subject::Subject;
use std::alloc::Allocator;
use std::io::{self, Write};
use value::refusal::{Code, Refusal};

// How things look.
const STYLE: &str = "<style>
text { font: 13px Helvetica, Arial, sans-serif; fill: #1f2328 }
.title { font-size: 16px; font-weight: bold }
.session { font-weight: bold }
.count { font-size: 11px; fill: #6e7781 }
.middle { text-anchor: middle }
.lane { stroke: #d0d7de; stroke-width: 1; fill: none }
.name { font-weight: bold }
.rank { font-size: 12px; fill: #1a7f37 }
.event { font: bold 12px Menlo, Consolas, monospace; text-anchor: middle }
.event.refused { fill: #cf222e }
.note { font-size: 12px; fill: #424a53 }
.why { font-size: 13px; fill: #cf222e }
rect { stroke-width: 1.6 }
.committed rect { fill: #dafbe1; stroke: #1a7f37 }
.failed rect { fill: #ffebe9; stroke: #cf222e; stroke-dasharray: 6 3 }
.undone rect { fill: #eaeef2; stroke: #6e7781; stroke-dasharray: 2 3 }
.open rect { fill: #fff8c5; stroke: #9a6700 }
.mark { fill: none; stroke-width: 2 }
.mark.committed { stroke: #1a7f37 }
.mark.failed { stroke: #cf222e }
.mark.undone { stroke: #6e7781 }
.mark.open { stroke: #9a6700 }
.arrow { fill: none }
.arrow.beside { stroke: #424a53; stroke-width: 1.6 }
.arrow.apart { stroke: #afb8c1; stroke-width: 1.2 }
.arrow.danger { stroke: #cf222e; stroke-width: 3.4 }
.label { font-size: 12px; text-anchor: middle }
.label.apart { fill: #8c959f }
.label.danger { font-weight: bold; fill: #cf222e }
.plate { fill: #fff; fill-opacity: .85; stroke: none }
.safe { fill: #0969da }
.dump { fill: #8250df }
</style>
";

// The heads of arrows.
const HEADS: &str = "<defs>
<marker id=\"beside\" viewBox=\"0 0 10 10\" refX=\"9\" refY=\"5\" markerWidth=\"9\" markerHeight=\"9\" markerUnits=\"userSpaceOnUse\" orient=\"auto\"><path d=\"M0 0 L10 5 L0 10 z\" fill=\"#424a53\"/></marker>
<marker id=\"apart\" viewBox=\"0 0 10 10\" refX=\"9\" refY=\"5\" markerWidth=\"8\" markerHeight=\"8\" markerUnits=\"userSpaceOnUse\" orient=\"auto\"><path d=\"M0 0 L10 5 L0 10 z\" fill=\"#afb8c1\"/></marker>
<marker id=\"danger\" viewBox=\"0 0 10 10\" refX=\"9\" refY=\"5\" markerWidth=\"14\" markerHeight=\"14\" markerUnits=\"userSpaceOnUse\" orient=\"auto\"><path d=\"M0 0 L10 5 L0 10 z\" fill=\"#cf222e\"/></marker>
</defs>
";

// What is drawn, without what stands around it; and how high it is.
fn write_body<A: Allocator + Copy, W: Write>(
    alloc: A,
    canvas: &Canvas<'_, A>,
    out: &mut W,
) -> io::Result<u64> {
    canvas.write_heading(out)?;
    canvas.write_lanes(out)?;
    canvas.write_lines(out)?;
    canvas.write_bars(out)?;
    canvas.write_marks(out)?;
    canvas.write_curves(out)?;
    canvas.write_events(out)?;
    canvas.write_labels(alloc, out)?;
    canvas.write_foot(out)
}

// What stands before what is drawn, in a picture of this width and height.
fn write_head<W: Write>(width: u64, height: u64, out: &mut W) -> io::Result<()> {
    writeln!(
        out,
        "<svg xmlns=\"http://www.w3.org/2000/svg\" viewBox=\"0 0 {width} {height}\" width=\"{width}\" height=\"{height}\">"
    )?;
    out.write_all(STYLE.as_bytes())?;
    out.write_all(HEADS.as_bytes())?;
    writeln!(out, "<rect width=\"100%\" height=\"100%\" fill=\"#fff\"/>")
}

// The picture.
fn written<A: Allocator + Copy>(
    alloc: A,
    subject: &Subject<'_, A>,
    picture: &Picture<A>,
) -> io::Result<Vec<u8, A>> {
    let layout = Layout::of(alloc, subject, picture)?;
    let canvas = Canvas {
        subject,
        picture,
        layout: &layout,
    };
    let mut body = Vec::new(alloc);
    let height = write_body(alloc, &canvas, &mut body)?;
    let mut text = Vec::new(alloc);
    write_head(layout.width(), height, &mut text)?;
    text.extend_from_slice(body.as_slice())?;
    writeln!(&mut text, "</svg>")?;
    Ok(text)
}

/// The text of a picture as SVG. It needs no other file, and has text of the script only as text.
pub fn svg_text<A: Allocator + Copy>(
    alloc: A,
    subject: &Subject<'_, A>,
    picture: &Picture<A>,
) -> Result<Vec<u8, A>, Refusal>
    ensures memory { IfErr result (λ e. e ≡ out_of_memory) }
{
    match written(alloc, subject, picture) {
        Ok(text) => Ok(text),
        Err(_) => Err(Refusal::of_code(Code::OutOfMemory)),
    }
}
