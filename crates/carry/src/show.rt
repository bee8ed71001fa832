// What the program prints.
use crate::level::level;
use layout::interface::Layout;
use samples::component::Component;
use samples::site::Site;

// The codes of some sites.
pub(crate) fn levels<L: Layout>(rt: &impl Print, layout: &L, image: &[u8]) -> anyhow::Result<()> {
    for site in [
        Site::at(Component::Luma, 0, 0),
        Site::at(Component::Luma, 719, 485),
        Site::at(Component::Cb, 100, 1),
        Site::at(Component::Cr, 359, 485),
    ] {
        let code = level(layout, image, site)?;
        println!(rt; "   {site} holds {code}")?;
    }
    Ok(())
}
