// The steps that every program shows first: the layout, its shape, where sites stand and whose bits are.
ghost use Rattle.std.specs.Prelude.{◌≡◌, cond, codes, IfOk};
ghost use Rattle.showing.specs.Recorder.{plain_layout, recorded};

use crate::recorder::{DETAIL, FIELDS, Recorder, WIDTH, packing, recorder};
use layout::interface::{Layout, Shaped, shape_of};
use samples::component::Component;
use samples::shape::Shape;
use samples::site::Site;
use std::io;

// In which words a program shows a layout. No trait: a public function that prints has no clause of its own.
#[derive(Clone, Copy)]
pub enum Words {
    // The chroma before the width of codes, and a bit before its site.
    BitFirst,
    // The width of codes before the chroma, and a site before its bits.
    SiteFirst,
}

// How a text says whether there is an A: a flag has no Display of its own.
pub fn alpha(shape: Shape) -> &'static str
    ensures { result.now ≡ cond shape.alpha (codes "A") (codes "no A") }
{
    if shape.alpha { "A" } else { "no A" }
}

// A program by its runtime, its name and its words.
#[derive(Drop)]
pub struct Steps<'a, R> {
    pub rt: &'a R,
    pub name: &'a str,
    pub words: Words,
}

impl<'a, R: Print> Steps<'a, R> {
    // Shows the first five steps, and gives the layout to go on with.
    pub fn begin(&self) -> anyhow::Result<Recorder>
        ensures { IfOk result (λ layout. plain_layout layout ≡ recorded) }
    {
        let layout = self.layout()?;
        self.shape(layout.shape())?;
        self.sites(&layout)?;
        self.owners(&layout)?;
        Ok(layout)
    }

    // Whose layout it is, its packing and the order of its lines.
    fn layout(&self) -> anyhow::Result<Recorder>
        ensures { IfOk result (λ layout. plain_layout layout ≡ recorded) }
    {
        let name = self.name;
        println!(self.rt;
            "{name}: a recorder's frame in v210, bottom field first, stored field by field"
        )?;
        let packing = packing(WIDTH)?;
        let row = packing.row_bytes();
        let length = packing.length();
        println!(self.rt; "1. packing v210: row {row} bytes, image {length} bytes")?;
        let layout = recorder(packing)?;
        println!(self.rt; "2. line order: fields {FIELDS}, detail {DETAIL}")?;
        Ok(layout)
    }

    fn shape(&self, shape: Shape) -> io::Result<()> {
        let size = shape.size;
        let bits = shape.bits;
        let chroma = shape.chroma;
        let alpha = alpha(shape);
        let time = shape.time;
        let count = shape.line_count();
        match self.words {
            Words::BitFirst => {
                println!(self.rt;
                    "3. shape: {size}, {chroma}, {alpha}, {bits}, {time}; {count} codes a line"
                )
            }
            Words::SiteFirst => {
                println!(self.rt;
                    "3. shape: {size}, {bits}, {chroma}, {alpha}, {time}; {count} codes a line"
                )
            }
        }
    }

    // Where the sites stand.
    fn sites(&self, layout: &Recorder) -> io::Result<()> {
        println!(self.rt; "4. first and last sites")?;
        for component in [
            Component::Luma,
            Component::Cb,
            Component::Cr,
            Component::Alpha,
        ] {
            self.ends(layout, component)?;
        }
        Ok(())
    }

    // Where the first site of a component starts, and the last one.
    fn ends<L: Layout>(&self, layout: &L, component: Component) -> io::Result<()> {
        let shape = shape_of(layout);
        let columns = shape.columns(component);
        self.start(layout, Site::at(component, 0, 0))?;
        if columns > 0 {
            let last = Site::at(component, columns - 1, shape.size.height - 1);
            self.start(layout, last)?;
        }
        Ok(())
    }

    fn start<L: Layout>(&self, layout: &L, site: Site) -> io::Result<()> {
        match layout.locate(site) {
            Ok(bit) => match self.words {
                Words::BitFirst => println!(self.rt; "   {site} starts at bit {bit}"),
                Words::SiteFirst => println!(self.rt; "   {site}: starts at bit {bit}"),
            },
            Err(fault) => println!(self.rt; "   {site}: {fault}"),
        }
    }

    // Whose some bits are: a spare bit, the ends of a code, and a bit that is past the width in narrower pictures.
    fn owners(&self, layout: &Recorder) -> anyhow::Result<()> {
        println!(self.rt; "5. owners of bits")?;
        for bit in [30, 3732490, 3732499, 15028] {
            self.owner(layout, bit)?;
        }
        println!(self.rt; "   in rows of 704 columns, which are as long:")?;
        self.owner(&packing(704)?, 15028)?;
        Ok(())
    }

    fn owner<L: Layout>(&self, layout: &L, bit: u32) -> io::Result<()> {
        match layout.owner(bit) {
            Some(site) => match self.words {
                Words::BitFirst => println!(self.rt; "   bit {bit}: {site}"),
                Words::SiteFirst => println!(self.rt; "   {site}: owns bit {bit}"),
            },
            None => {
                let value = u8::from(layout.fixed(bit));
                println!(self.rt; "   bit {bit}: nobody's, fixed at {value}")
            }
        }
    }
}
