//! Writes the page of the crate `example_shop`, and after it the pages of themes: each word of the command line is a folder
//! with a template `page.liquid`, its data in `data.json`, and a folder `parts` of partials.
#![tactic(auto)]

mod fault;
mod shop;
mod theme;

use fault::Fault;
use liquid_core::parser::Language;
use liquid_filters::{FilterPlugin, StdKind, filters};
use liquid_pages::{Leniency, PageFrame, PageOptions, Rendered, render_page};
use liquid_std::marks::Marks;
use liquid_std::{StdBlocks, StdTags, language};
use shop::write_shop;
use std::alloc::Global;
use std::env;
use std::io::{self, Write};
use std::process::ExitCode;
use std::rc::Rc;
use theme::{Theme, partials_of, read_theme};

/// The standard tags, blocks and filters.
type StdLanguage = Language<FilterPlugin<StdKind>, StdTags, StdBlocks>;

/// Returns the standard language.
fn standard(alloc: Global) -> Result<Rc<StdLanguage>, Fault> {
    let filters = filters(alloc, None)?;
    Ok(Rc::new(alloc, language(alloc, filters)?)?)
}

/// Renders a theme. A missing name is nil.
fn render(alloc: Global, language: &Rc<StdLanguage>, theme: &Theme) -> Result<Rendered, Fault> {
    let partials = partials_of(alloc, theme)?;
    let options = PageOptions {
        decimals: false,
        frame: PageFrame::Open,
        leniency: Leniency::Paths,
        max_turns: None,
        max_bytes: None,
    };
    let (page, data) = (theme.page.as_slice(), theme.data.as_slice());
    Ok(render_page::<Marks, _, _, _>(alloc, language, options, page, data, partials.as_slice()))
}

/// Writes the page of a theme, up to its error if it has one.
fn write_page(rt: &HostRuntime, language: &Rc<StdLanguage>, folder: &str) -> Result<(), Fault> {
    let theme = read_theme(rt, folder)?;
    let Rendered { output, end, .. } = render(rt.alloc(), language, &theme)?;
    let stdout = rt.stdout();
    io::writer(&stdout).write_all(output.as_bytes())?;
    Ok(end?)
}

/// Writes the page of the shop, and that of each folder of the command line.
fn write_pages(rt: &HostRuntime) -> Result<(), Fault> {
    let stdout = rt.stdout();
    write_shop(rt.alloc(), &mut io::writer(&stdout))?;
    let language = standard(rt.alloc())?;
    for folder in env::args(rt)?.skip(1) {
        write_page(rt, &language, folder.as_str())?;
    }
    Ok(())
}

fn main(rt: HostRuntime) -> ExitCode {
    match write_pages(&rt) {
        Ok(()) => ExitCode::SUCCESS,
        Err(fault) => {
            let _ = rt.eprint(format_args!("{fault}"));
            ExitCode::FAILURE
        }
    }
}
