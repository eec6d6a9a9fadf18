// Samples as Netpbm PGM in the P5 form, with any greatest sample.
// https://netpbm.sourceforge.net/doc/pgm.html
ghost use Rattle.std.specs.Prelude.{◌≡◌, ◌++◌, ◌*◌, ◌<◌, ◌≤◌, length, All, IfOk, OnOk};
ghost use Rattle.std.specs.List.{flat_map};
ghost use Rattle.raster_pgm.specs.Samples.{one_byte, samples_header_of, samples_of, two_bytes};

use std::alloc::{AllocError, Global};

/// The bytes of h rows of w samples, none of which is above d: one byte a sample where d is below
/// 256, and else two, the most significant first. AllocError: there is no memory for them.
pub fn samples_text(
    alloc: Global,
    w: u32,
    h: u32,
    d: u32,
    samples: &[u16],
) -> Result<Vec<u8>, AllocError>
    requires count { length samples.now ≡ w * h }
    requires some { 1 ≤ d }
    requires few { d ≤ 1024 }
    requires within { All (λ sample. sample ≤ d) samples.now }
    ensures text { IfOk result (λ text. text.items ≡ samples_of w h d samples.now) }
{
    let mut text = samples_header(alloc, w, h, d)?;
    if d < 256 {
        push_single(&mut text, samples)?;
    } else {
        push_double(&mut text, samples)?;
    }
    Ok(text)
}

// What stands before the samples.
fn samples_header(alloc: Global, w: u32, h: u32, d: u32) -> Result<Vec<u8>, AllocError>
    ensures { IfOk result (λ text. text.items ≡ samples_header_of w h d) }
{
    Ok(format!(in alloc; "P5\n{w} {h}\n{d}\n")?.into_bytes())
}

// Puts each sample behind the text, in one byte.
fn push_single(text: &mut Vec<u8>, samples: &[u16]) -> Result<(), AllocError>
    requires { All (λ sample. sample < 256) samples.now }
    ensures { OnOk result (text.new.items ≡ text.old.items ++ flat_map one_byte samples.now) }
{
    text.reserve_exact(samples.len())?;
    for sample in samples {
        text.push(*sample as u8)?;
    }
    Ok(())
}

// Puts each sample behind the text, in two bytes, the most significant first.
fn push_double(text: &mut Vec<u8>, samples: &[u16]) -> Result<(), AllocError>
    ensures { OnOk result (text.new.items ≡ text.old.items ++ flat_map two_bytes samples.now) }
{
    text.reserve_exact(2 * samples.len())?;
    for sample in samples {
        text.push((*sample / 256) as u8)?;
        text.push((*sample % 256) as u8)?;
    }
    Ok(())
}
