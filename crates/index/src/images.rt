// Saving and loading the image.
ghost use Rattle.std.specs.Prelude.{◌≡◌, IfOk};
ghost use Rattle.ground.specs.Refusals.{number_of};
ghost use Rattle.image.specs.Image.{trailer_of};
ghost use Rattle.index.specs.Calls.{saved, image_refusal, loaded};
ghost use Rattle.index.specs.CallLaws.{left_of};

use ground::Refusal;
use image::Trailer;
use pages::{Page, Small};

// Refusals 1, 7 and 4, in this order.
pub fn save(t: &[u16], s: Small, out: &mut [u8]) -> Result<(), Refusal>
    ensures { record { refusal = number_of result; buffer = out.new } ≡ saved t.now s out.old }
{
    if !pages::table_fits(t) {
        return Err(Refusal::Table);
    }
    if out.len() != 2 * t.len() + Trailer::BYTES {
        return Err(Refusal::Size);
    }
    wellformed::check(t, s)?;
    image::encode(t, s, Trailer::FORM, out);
    Ok(())
}

// The trailer of an image for this table. Refusals 7, 1 and 8, in this order, before anything is written.
fn trailer_for(image: &[u8], t: &[u16]) -> Result<Trailer, Refusal>
    ensures number { number_of result ≡ image_refusal image.now t.now }
    ensures trailer { IfOk result (λ x. x ≡ trailer_of image.now) }
{
    let pages = image::image_pages(image.len()).ok_or(Refusal::Size)?;
    if t.len() != Page::WORDS * pages {
        return Err(Refusal::Table);
    }
    let trailer = Trailer::read(image);
    if !trailer.good(Trailer::FORM, pages) {
        return Err(Refusal::Trailer);
    }
    Ok(trailer)
}

// Refusals 7, 1, 8 and 4, in this order. One that ends in 4 leaves the empty book.
pub fn load(image: &[u8], t: &mut [u16], s: &mut Small) -> Result<(), Refusal>
    ensures { left_of t.new s.new result ≡ loaded image.now t.old s.old }
{
    let small = trailer_for(image, t)?.small();
    image::decode(image, t);
    match wellformed::check(t, small) {
        Ok(_) => {
            *s = small;
            Ok(())
        }
        Err(refusal) => {
            pages::clear(t);
            *s = Small::empty();
            Err(refusal)
        }
    }
}
