// A model that is made from a seed, and what its image takes, as text.
ghost use Rattle.std.specs.Prelude.{◌≡◌, ◌==◌, ◌≤◌, ◌++◌, [], ◌∷◌, Ok, codes, count_by, decimal, length, IfOk, OnOk};
ghost use Rattle.model_frames.specs.Images.{plain_points as plain_points_of};
ghost use Rattle.model_frames.specs.Work.{CountsWithin, CountsWork, PointsRiseAtMost, frame_work};
ghost use Rattle.quad_descent.specs.Pixels.{pixels_of};
ghost use Rattle.view_settings.specs.Verbs.{IsJob};
ghost use Rattle.view_settings.specs.declared.job.Job.TheVariants as jobs;
ghost use Rattle.modeller_cmd.specs.Bands.{HasRoom};
ghost use Rattle.modeller_cmd.specs.CountTexts.{count_lines};
ghost use Rattle.modeller_cmd.specs.Forging.{forge_part, forge_text, forged_clauses};
ghost use Rattle.modeller_cmd.specs.Execution.{ExecutedAtOnce};

use crate::count::plain_points;
use crate::image::{band_rows, make_room, put_rows};
use crate::send::send;
use crate::stop::Stop;
use fixed_ops::Tally;
use model_forge::forge_model;
use model_frames::{Drawn, draw_image};
use modeller_io::Sink;
use quad_descent::Picture;
use solid_model::Model;
use std::alloc::{AllocError, Global};
use view_places::View;
use view_settings::Forge;

/// Makes a model from a seed, and writes the five lines that tell of it and of its image.
pub fn forge<K: Sink>(
    alloc: Global,
    wanted: &Forge,
    out: &mut K,
    tally: &mut Tally,
) -> Result<(), Stop>
    requires { IsJob (jobs.Forge wanted.now) }
    ensures { ExecutedAtOnce K.held K.faults out.old out.new tally.old tally.new
        (Ok (forge_part wanted.now ∷ [])) result }
{
    let text = forge_text(alloc, wanted, tally)?;
    send(alloc, &Drawn::Bytes(text), out)
}

// The model that a seed and a number of discs make, drawn over a view, as five lines: how many
// clauses it has, how many pixels are inside, and the work of the image.
#[tactic(auto, unfolding(crate::specs::Forging::forged_clauses))]
fn forge_text(alloc: Global, wanted: &Forge, tally: &mut Tally) -> Result<Vec<u8>, AllocError>
    requires { IsJob (jobs.Forge wanted.now) }
    ensures ok { IfOk result (λ text. text.items
        ≡ forge_text wanted.now.view (forged_clauses wanted.now)) }
    ensures counted { OnOk result (CountsWork tally.old tally.new
        (frame_work wanted.now.view (forged_clauses wanted.now))) }
    ensures at_most { CountsWithin tally.old tally.new
        (frame_work wanted.now.view (forged_clauses wanted.now)) }
    ensures plain { PointsRiseAtMost tally.old tally.new
        (plain_points_of wanted.now.view (length (forged_clauses wanted.now))) }
{
    let model = forge_model(alloc, wanted.seed, wanted.solids)?;
    draw_lines(alloc, &model, &wanted.view, tally)
}

// The five lines of a model and of its image over a view. The image is a fresh one: what the tally
// counted before is not told.
#[tactic(auto, using(crate::proofs::Counting::counted_apart))]
fn draw_lines(
    alloc: Global,
    model: &Model,
    view: &View,
    tally: &mut Tally,
) -> Result<Vec<u8>, AllocError>
    ensures ok { IfOk result (λ text. text.items ≡ forge_text view.now model.now) }
    ensures counted { OnOk result (CountsWork tally.old tally.new (frame_work view.now model.now)) }
    ensures at_most { CountsWithin tally.old tally.new (frame_work view.now model.now) }
    ensures plain { PointsRiseAtMost tally.old tally.new
        (plain_points_of view.now (length model.now)) }
{
    let mut frame = Tally::new();
    let drawn = draw_image(alloc, model, view, &mut frame);
    tally.join(&frame);
    let picture = drawn?;
    let inside = inside_pixels(alloc, &picture, view)?;
    let plain = plain_points(model, view);
    forge_lines(
        alloc,
        model.len(),
        inside,
        frame.points(),
        frame.spans(),
        plain,
    )
}

// How many pixels of an image over a view are inside. They are painted some rows at a time.
fn inside_pixels(alloc: Global, picture: &Picture, view: &View) -> Result<usize, AllocError>
    requires { picture.now.view ≡ view.now }
    ensures { IfOk result (λ inside. inside
        ≡ count_by (λ pixel. pixel == 255) (pixels_of picture.now.view picture.now.list)) }
{
    let mut buffer = Vec::new(alloc);
    make_room(view, &mut buffer)?;
    Ok(count_inside(picture, view, &mut buffer))
}

// How many pixels of an image over a view are inside.
fn count_inside(picture: &Picture, view: &View, buffer: &mut [u8]) -> usize
    requires over { picture.now.view ≡ view.now }
    requires room { HasRoom view.now buffer.old }
    ensures { result
        ≡ count_by (λ pixel. pixel == 255) (pixels_of picture.now.view picture.now.list) }
{
    let mut inside = 0;
    let mut row = 0;
    while row < view.h {
        let rows = band_rows(view, row);
        let end = put_rows(picture, view, row, rows, 0, buffer);
        inside += count_white(&buffer[..end]);
        row += rows;
    }
    inside
}

// How many of some pixels are inside.
fn count_white(pixels: &[u8]) -> usize
    ensures count { result ≡ count_by (λ pixel. pixel == 255) pixels.now }
    ensures few { result ≤ length pixels.now }
{
    pixels.iter().filter(|pixel| **pixel == 255).count()
}

// The five lines of these counts.
fn forge_lines(
    alloc: Global,
    clauses: u32,
    inside: usize,
    points: u64,
    spans: u64,
    plain: u64,
) -> Result<Vec<u8>, AllocError>
    ensures { IfOk result (λ text. text.items
        ≡ codes "clauses " ++ decimal clauses ++ codes "\ninside " ++ decimal inside ++ codes "\n"
        ++ count_lines points spans plain) }
{
    let text = format!(in alloc;
        "clauses {clauses}\ninside {inside}\npoints {points}\nspans {spans}\nplain {plain}\n"
    )?;
    Ok(text.into_bytes())
}
