// A frame with the runtime that shows it and the image that it is lent.
use frame::making::Making;
use layout::interface::{Layout, Shaped};
use samples::shape::Shape;
use samples::site::Site;
use showing::head::Head;
use std::io;

#[derive(Drop)]
pub(crate) struct Recording<'a, L> {
    pub(crate) rt: &'a HostRuntime,
    frame: Making<L>,
    image: &'a mut [u8],
}

impl<'a, L: Layout + Drop> Recording<'a, L> {
    pub(crate) fn new(
        rt: &'a HostRuntime,
        frame: Making<L>,
        image: &'a mut [u8],
    ) -> Recording<'a, L> {
        Recording { rt, frame, image }
    }

    pub(crate) fn shape(&self) -> Shape {
        self.frame.shape()
    }

    // Shows the first bytes of the image.
    pub(crate) fn bytes(&self, name: &str) -> io::Result<()> {
        let head = Head::of(self.image);
        println!(self.rt; "   {name}:{head}")
    }

    // Shows the codes of some sites.
    pub(crate) fn codes(&self, sites: &[Site]) -> anyhow::Result<()> {
        for site in sites {
            let code = self.frame.take(self.image, *site)?;
            println!(self.rt; "   {site}: {code}")?;
        }
        Ok(())
    }

    // Lays the next lines, all of the same codes.
    pub(crate) fn lay_lines(&mut self, count: u32, codes: &[u16]) -> anyhow::Result<()> {
        let mut come = 0;
        for _ in 0..count {
            come = self.frame.lay(self.image, codes)?;
        }
        println!(self.rt; "   lines come: {come}")?;
        Ok(())
    }

    // Lays a line that may be refused.
    pub(crate) fn lay(&mut self, what: &str, codes: &[u16]) -> io::Result<()> {
        match self.frame.lay(self.image, codes) {
            Ok(come) => println!(self.rt; "   {what}: lines come: {come}"),
            Err(fault) => println!(self.rt; "   {what}: {fault}"),
        }
    }

    // Puts a code that may be refused.
    pub(crate) fn put(&mut self, site: Site, code: u16) -> io::Result<()> {
        match self.frame.put(self.image, site, code) {
            Ok(old) => println!(self.rt; "   {site}: {code} in place of {old}"),
            Err(fault) => println!(self.rt; "   {site}: put {code}: {fault}"),
        }
    }

    // Copies the image, into as many bytes.
    pub(crate) fn keep(&self, copy: &mut [u8]) {
        if copy.len() == self.image.len() {
            copy.copy_from_slice(self.image);
        }
    }

    // Shows whether the image is as it was.
    pub(crate) fn compare(&self, before: &[u8]) -> io::Result<()> {
        let same = if before == self.image {
            "unchanged"
        } else {
            "changed"
        };
        println!(self.rt; "   image: {same}")
    }
}
