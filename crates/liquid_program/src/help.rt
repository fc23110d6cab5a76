//! What the program says of itself.
ghost use Rattle.std.specs.Prelude.{◌≡◌, IfSome, false, map, string_bytes};
ghost use Rattle.liquid_program.specs.meaning.PagesCommand.{is_asked};

const VERSION: &str = "liquid 0.26.11-3\n";

const HELP: &str = "usage: liquid render [OPTION..] TEMPLATE GLOBALS.json [DIR]
       liquid render [OPTION..] --globals GLOBALS.json [--partials DIR]
              -o FOLDER TEMPLATE..
       liquid --help
       liquid --version

TEMPLATE       a file of Liquid, in UTF-8
GLOBALS.json   a file with one JSON object: its members are the names that the
               template sees
DIR            a folder: each file directly in it is a partial, under the file's
               name
--sandboxed    the template is rendered in a sandbox; what it assigns it sees
               only with --standard
--lenient      a missing name or index is nil instead of an error
--standard     the template has the tags, blocks and filters of standard Liquid
--decimals     a number of GLOBALS.json with a fraction is a decimal instead of
               an error
--turns N      the page may take N turns of tags and blocks; 0 is no limit
--bytes N      the page may write N bytes; 0 is no limit
--explain      an error says more: why a file can't be read, where a text is not
               JSON, where an open block begins, which names are similar, which
               limit is reached, which template it is
--ext .EXT     only files of DIR that end in .EXT are partials, under their
               names without it, and so are those in folders of DIR: 'nav/item'
               is DIR/nav/item.EXT. Nothing else is read. Links in DIR are
               passed over
-o FILE        the page is written to FILE, which is replaced only if the page
               is whole, and not if it is TEMPLATE or GLOBALS.json. FILE/ is a
               folder: the page gets the name of the template there

With --globals there may be many templates, and -o names an existing folder:
each page gets the name of its template there. The globals and the partials are
read once. A page with an error is reported, and the others are still written.

The options come in any order, each at most once. They may also come after the
paths and between them, but with --globals they come before the first template.
After the word '--' all words are paths. The word '-' in the place of TEMPLATE
or GLOBALS.json is standard input. But if 'render' and options of --sandboxed,
--lenient and --standard are followed by just two or three words, and the first
of them does not begin with '--', they are TEMPLATE, GLOBALS.json and DIR,
whatever they look like.

Status 0   all pages are written
       1   the template or what it uses is an error, a limit is reached, the
           output can't be written, or memory ran out
       2   the words are not a command
       3   a file can't be read as text, or the globals are not a JSON object of
           values
Of several pages it is the first status that is not 0.
";

/// Returns the text that the words ask for, if it is the version or the help.
pub fn text_for(words: &[String]) -> Option<&'static str>
    ensures { IfSome result (λ _. is_asked (map string_bytes words.now) ≡ false) }
{
    let [word] = words else {
        return None;
    };
    if word.as_str() == "--version" {
        Some(VERSION)
    } else if word.as_str() == "--help" {
        Some(HELP)
    } else {
        None
    }
}
