//! Listings of images.
ghost use Rattle.pv_model.specs.Machine.{listing};
ghost use Rattle.pv_run.specs.Listings.{ListsGiven, ListsImage, WritesFlushed};

use pv_image_mount::mount;
use pv_listing::write_listing;
use pv_model::{ListFault, RunFault};
use pv_streams::{Sink, Source, Stop, read_whole};
use pv_tree::Tree;
use std::alloc::Global;

// Writes the listing of a tree, and flushes it.
#[tactic(auto, using(pv_streams::proofs::SinkWrites::begins_whole))]
fn write_all<W: Sink>(alloc: Global, tree: &Tree, out: &mut W) -> Result<(), Stop>
    ensures { WritesFlushed W.Sink (listing tree.now.tree) out.old out.new result }
{
    match write_listing(alloc, tree, out) {
        Ok(()) => {
            out.flush()?;
            Ok(())
        }
        Err(Stop::Memory) => {
            out.flush()?;
            Err(Stop::Memory)
        }
        Err(Stop::Write) => Err(Stop::Write),
    }
}

// Writes the listing of the tree in an image, given its bytes.
fn list_bytes<W: Sink>(alloc: Global, bytes: Vec<u8>, out: &mut W) -> Result<(), ListFault>
    ensures { ListsGiven W.Sink (λ holds. holds bytes.items) ⊥ out.old out.new result }
{
    let mut store = mount(alloc, bytes)?;
    store.order_entries();
    match write_all(alloc, store.tree(), out) {
        Ok(()) => Ok(()),
        Err(Stop::Memory) => Err(ListFault::Memory),
        Err(Stop::Write) => Err(ListFault::Write),
    }
}

/// Writes the listing of an image: a line for each name of its tree. Each directory is followed by all names in it, and
/// names are in the order of their bytes.
///
/// The image is read to its end, and it is checked before anything is written. On success, `out` received exactly the
/// listing of the image's tree.
///
/// # Errors
///
/// - `Read`: a read failed, or the source gave more than 67,108,864 bytes.
/// - `Image`: the first error of the image. Out of memory is never reported as an error of the image.
/// - `Memory`: there is no memory. `out` received a prefix of the listing, possibly nothing.
/// - `Write`: a write failed. `out` received a prefix of the listing.
///
/// After any other error nothing was written. Except after `Write`, everything that was written is flushed.
pub fn list<S: Source, W: Sink>(alloc: Global, image: &mut S, out: &mut W) -> Result<(), ListFault>
    ensures { ListsImage S.Source W.Sink image.old image.new out.old out.new result }
{
    let bytes = match read_whole(alloc, image) {
        Ok(bytes) => bytes,
        Err(RunFault::Read) => return Err(ListFault::Read),
        Err(_) => return Err(ListFault::Memory),
    };
    list_bytes(alloc, bytes, out)
}
