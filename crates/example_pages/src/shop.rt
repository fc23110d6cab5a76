//! The page of the crate `example_shop`, and what two of its customers wrote.
use example_shop::pages::{Shop, write_review};
use liquid_core::{Error, WriterSink};
use std::alloc::Global;
use std::io::Write;

/// Two reviews of customers: the second one uses a name of the shop's.
const REVIEWS: [&str; 2] = [
    "<q>{{ item | upcase | quoted }} is fine, says {{ visitor }}.</q>\n",
    "<q>They pay {{ shop.margin }} for it.</q>\n",
];

/// Writes the page, and each review after it. The error of a review is written in its place.
pub fn write_shop<W: Write>(alloc: Global, out: &mut W) -> Result<(), Error> {
    let mut sink = WriterSink::new(out);
    let mut shop = Shop::open(alloc)?;
    shop.write_page(alloc, &mut sink)?;
    for review in REVIEWS {
        write_review(alloc, &mut shop, review, &mut sink)?;
    }
    Ok(())
}
