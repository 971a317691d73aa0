//! Rounds: a change over files of which one stops.

use crate::disk::{FusedFiles, Image, Left, Stopped, is_stopped};
use crate::opening::{Fused, close_store, open};
use crate::stops::act::Act;
use crate::stops::applying::make;
use crate::stops::content::Content;
use anyhow::bail;
use std::alloc::Global;

/// A stop.
#[derive(Clone, Copy, Debug)]
pub struct Stop {
    pub stopped: Stopped,
    pub left: Left,
    /// How many calls of the file come before it.
    pub calls: u64,
}

/// When a stop came.
#[derive(Clone, Copy, Debug, PartialEq, Eq)]
pub enum Came {
    /// Before the change was answered.
    Unanswered,
    /// After it was answered.
    Answered,
    /// There were fewer calls.
    Never,
}

/// Opens files of which one stops: what is left, or None if they open before that.
pub fn open_stopped<D: Fused>(
    alloc: Global,
    image: &Image<D>,
    stop: Stop,
) -> anyhow::Result<Option<Content>> {
    let files = image.stopping(alloc, stop.stopped, stop.calls)?;
    match open::<D>(alloc, files) {
        Ok(_) => Ok(None),
        Err(files) => Ok(Some(content_left::<D>(alloc, files, stop.left)?)),
    }
}

/// Makes a change over files of which one stops: when that came, and what is left.
pub fn change_stopped<D: Fused>(
    alloc: Global,
    image: &Image<D>,
    act: &Act,
    stop: Stop,
) -> anyhow::Result<(Came, Content)> {
    let files = image.stopping(alloc, stop.stopped, stop.calls)?;
    let (came, files) = change_over::<D>(alloc, files, act)?;
    Ok((came, content_left::<D>(alloc, files, stop.left)?))
}

// What files hold after a stop.
fn content_left<D: Fused>(alloc: Global, files: FusedFiles, left: Left) -> anyhow::Result<Content> {
    let image: Image<D> = Image::left(alloc, files, left)?;
    content_of(alloc, &image)
}

// Makes a change over files: when one stopped, and the files.
fn change_over<D: Fused>(
    alloc: Global,
    files: FusedFiles,
    act: &Act,
) -> anyhow::Result<(Came, FusedFiles)> {
    match open::<D>(alloc, files) {
        Ok(store) => {
            let (store, answered) = make(alloc, store, act);
            let mut files = close_store(store);
            let came = when(is_stopped(&mut files), answered?);
            Ok((came, files))
        }
        Err(files) => Ok((Came::Unanswered, files)),
    }
}

/// When a stop came, by whether one of the files stopped and whether the change was answered.
pub fn when(stopped: bool, answered: bool) -> Came {
    match (stopped, answered) {
        (false, _) => Came::Never,
        (true, false) => Came::Unanswered,
        (true, true) => Came::Answered,
    }
}

/// What files of these bytes hold.
pub fn content_of<D: Fused>(alloc: Global, image: &Image<D>) -> anyhow::Result<Content> {
    match open::<D>(alloc, image.files(alloc)?) {
        Ok(mut store) => Content::of(alloc, &mut store),
        Err(_) => bail!("what is left can't be opened"),
    }
}

/// Makes a change over files of these bytes, with no stop: what they are afterwards.
pub fn image_after<D: Fused>(
    alloc: Global,
    image: &Image<D>,
    act: &Act,
) -> anyhow::Result<Image<D>> {
    let Ok(store) = open::<D>(alloc, image.files(alloc)?) else {
        bail!("the files can't be opened");
    };
    let (store, answered) = make(alloc, store, act);
    if !answered? {
        bail!("a change was refused");
    }
    Ok(Image::left(alloc, close_store(store), Left::Synced)?)
}
