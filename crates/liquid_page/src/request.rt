//! What the words of `liquid page` say.

use liquid_pages::PageOptions;

/// What the words of `liquid page` say.
#[derive(Drop)]
pub struct Request<'w> {
    /// The templates, and the folders of templates.
    pub templates: Vec<&'w str>,
    /// The files of data, each perhaps with a name and `=` before it.
    pub data_words: Vec<&'w str>,
    /// The texts that are set, such as `site.title=Home`.
    pub sets: Vec<&'w str>,
    /// The folder of the partials.
    pub folder: Option<&'w str>,
    /// The file or the folder that pages go to.
    pub output: Option<&'w str>,
    /// The moment that `now` and `today` are.
    pub moment: Option<&'w str>,
    /// How each page is rendered.
    pub options: PageOptions,
    /// Whether the templates are as Jekyll's authors write them. Then a partial's name is its whole path in its folder.
    pub is_jekyll: bool,
    /// Whether the pages are made again after each line of standard input.
    pub is_watched: bool,
}
