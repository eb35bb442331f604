//! Patterns for the names of files.

use std::alloc::Global;

/// A part of a pattern.
#[derive(Clone, Copy)]
enum Part<'a> {
    Char(char),
    /// Any character except `/`.
    One,
    /// Any number of characters except `/`.
    Some,
    /// Any number of characters.
    All,
    /// Nothing, or any number of characters of which `/` is the last.
    Folders,
    /// One of these characters, or none of them, and no `/`.
    Set { chars: &'a str, negated: bool },
}

/// A pattern: `?` stands for a character except `/`, `*` for any number of these, `**` for any number of any characters, `**/` for
/// any folders or none, `[a-z]` for one of these characters, `[!a-z]` for another one, and `\` for the character after it.
#[derive(Drop)]
pub struct Glob<'a> {
    parts: Vec<Part<'a>>,
    /// It is matched with a path below a folder, else with a name.
    has_slash: bool,
}

/// Why a text is no pattern, and at which of its characters, counted from 1.
#[derive(Clone, Copy)]
pub struct WrongGlob {
    pub why: &'static str,
    pub place: u64,
}

/// There is no room for a pattern.
pub const NO_ROOM: WrongGlob = WrongGlob {
    why: "out of memory",
    place: 1,
};

fn split_char(text: &str) -> Option<(char, &str)> {
    let mut chars = text.chars();
    let c = chars.next()?;
    Some((c, chars.as_str()))
}

// The first range of a set, `a-z` or a character, and what is after it.
fn split_range(chars: &str) -> Option<(char, char, &str)> {
    let (low, rest) = split_char(chars)?;
    match rest.strip_prefix('-').and_then(split_char) {
        Some((high, rest)) => Some((low, high, rest)),
        None => Some((low, low, rest)),
    }
}

// Whether some range of the set is so.
fn has_range<F: Fn(char, char) -> bool>(chars: &str, is_so: F) -> bool
    requires { F.IsAlwaysCallable is_so }
{
    let mut left = chars;
    for _ in 0..chars.len() {
        let Some((low, high, rest)) = split_range(left) else {
            break;
        };
        if is_so(low, high) {
            return true;
        }
        left = rest;
    }
    false
}

impl Part<'_> {
    // Whether it takes this character.
    fn takes(&self, c: char) -> bool {
        match self {
            Part::Char(own) => *own == c,
            Part::One | Part::Some => c != '/',
            Part::Set { chars, negated } => {
                c != '/' && has_range(chars, |low, high| low <= c && c <= high) != *negated
            }
            Part::All | Part::Folders => true,
        }
    }

    // What is left of a text after the part took a character, or a folder, of it.
    fn after<'t>(&self, text: &'t str) -> Option<&'t str> {
        if let Part::Folders = self {
            return Some(text.split_once('/')?.1);
        }
        let (c, rest) = split_char(text)?;
        self.takes(c).then_some(rest)
    }
}

// The set that a text begins with, after its `[`, and what is after its `]`.
fn split_set(text: &str) -> Result<Option<(Part<'_>, &str)>, &'static str> {
    let left = text.strip_prefix('!').unwrap_or(text);
    let negated = left.len() < text.len();
    let Some((chars, rest)) = left.split_once(']') else {
        return Err("the [ has no ]");
    };
    if chars.is_empty() || has_range(chars, |low, high| high < low) {
        return Err("no character is in this set, or in a range of it");
    }
    Ok(Some((Part::Set { chars, negated }, rest)))
}

// The part that a text begins with, and what is after it, or what is wrong there; nothing at the end. A folder's name can begin there
// where it is `fresh`.
fn split_part(text: &str, fresh: bool) -> Result<Option<(Part<'_>, &str)>, &'static str> {
    match (text.strip_prefix("**/"), text.strip_prefix("**")) {
        (Some(rest), _) if fresh => return Ok(Some((Part::Folders, rest))),
        (_, Some(rest)) => return Ok(Some((Part::All, rest))),
        _ => {}
    }
    match split_char(text) {
        None => Ok(None),
        Some(('*', rest)) => Ok(Some((Part::Some, rest))),
        Some(('?', rest)) => Ok(Some((Part::One, rest))),
        Some(('[', rest)) => split_set(rest),
        Some(('\\', rest)) => match split_char(rest) {
            Some((c, rest)) => Ok(Some((Part::Char(c), rest))),
            None => Err("nothing comes after the \\"),
        },
        Some((c, rest)) => Ok(Some((Part::Char(c), rest))),
    }
}

// A place in a pattern and one in a text, at which the reading goes on where it ended nowhere.
#[derive(Clone, Copy)]
struct Again<'p, 'a> {
    parts: &'p [Part<'a>],
    text: &'p str,
}

// The same after a `*`, a `**` or a `**/` took one more.
fn one_more<'p, 'a>(again: Again<'p, 'a>) -> Option<Again<'p, 'a>> {
    let text = again.parts.first()?.after(again.text)?;
    Some(Again { text, ..again })
}

// Whether the parts match the text. The last `*` takes as few characters as it may, and the last `**` where no `*` after it
// helps: what comes before these matches as little of the text as it can then.
fn stands_for(parts: &[Part<'_>], text: &str) -> bool {
    let mut at = Again { parts, text };
    let mut near: Option<Again<'_, '_>> = None;
    let mut far: Option<Again<'_, '_>> = None;
    for _ in 0..u64::MAX {
        let Again { parts, text } = at;
        let next = match parts {
            [] if text.is_empty() => return true,
            [Part::Some, rest @ ..] => {
                near = Some(at);
                Some(Again { parts: rest, text })
            }
            [Part::All | Part::Folders, rest @ ..] => {
                far = Some(at);
                near = None;
                Some(Again { parts: rest, text })
            }
            [part, parts @ ..] => part.after(text).map(|text| Again { parts, text }),
            [] => None,
        };
        at = match next {
            Some(next) => next,
            None => match gone_back(&mut near, &mut far) {
                Some(again) => again,
                None => return false,
            },
        };
    }
    false
}

// Where the reading goes on: after the last `*` that can take one more, else after the last `**`.
fn gone_back<'p, 'a>(
    near: &mut Option<Again<'p, 'a>>,
    far: &mut Option<Again<'p, 'a>>,
) -> Option<Again<'p, 'a>> {
    *near = near.and_then(one_more);
    if near.is_none() {
        *far = far.and_then(one_more);
    }
    let again = near.or(*far)?;
    match again.parts {
        [_, parts @ ..] => Some(Again { parts, ..again }),
        [] => None,
    }
}

// What is wrong where that is left of a pattern.
fn wrong_at(why: &'static str, text: &str, left: &str) -> WrongGlob {
    let before = text.chars().count().saturating_sub(left.chars().count());
    WrongGlob {
        why,
        place: (before as u64).saturating_add(1),
    }
}

impl<'a> Glob<'a> {
    /// The pattern that the text is, or why it is none.
    pub fn new(alloc: Global, text: &'a str) -> Result<Glob<'a>, WrongGlob> {
        let mut parts = Vec::new(alloc);
        let mut has_slash = false;
        let mut fresh = true;
        let mut left = text;
        for _ in 0..u64::MAX {
            let (part, rest) = match split_part(left, fresh) {
                Ok(Some(found)) => found,
                Ok(None) => break,
                Err(why) => return Err(wrong_at(why, text, left)),
            };
            left = rest;
            fresh = matches!(part, Part::Char('/') | Part::Folders);
            has_slash = has_slash || fresh;
            if parts.push(part).is_err() {
                return Err(NO_ROOM);
            }
        }
        Ok(Glob { parts, has_slash })
    }

    /// Whether it matches a file of that path below the folder that was named: the path where the pattern has a `/`, else
    /// for the name, which is what comes after the last `/`.
    pub fn matches(&self, path: &str) -> bool {
        let text = if self.has_slash {
            path
        } else {
            path.rsplit_once('/').map_or(path, |split| split.1)
        };
        stands_for(self.parts.as_slice(), text)
    }
}
