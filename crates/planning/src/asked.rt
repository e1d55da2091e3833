//! What the words on the command line ask for.
ghost use Rattle.std.specs.Prelude.{◌≡◌, map, string_bytes};
ghost use Rattle.planning.specs.Words.{AskedBy};

/// What the program is to do with the page.
#[derive(Clone, Copy, Debug, PartialEq, Eq)]
pub enum Asked {
    Plan,
    File { run: u32 },
}

impl Asked {
    /// A plan where there is no word, a filed page for `file RUN`, and nothing for other words.
    pub fn by(words: &[String]) -> Option<Asked>
        ensures { AskedBy (map string_bytes words.now) result }
    {
        match words {
            [] => Some(Asked::Plan),
            [word, number] if word.as_str() == "file" => {
                let run = number.as_str().parse::<u32>().ok()?;
                Some(Asked::File { run })
            }
            _ => None,
        }
    }
}
