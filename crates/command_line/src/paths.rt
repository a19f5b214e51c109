//! The folder of a release, by its path.

ghost use Rattle.std.specs.Prelude.{option_map};
ghost use Rattle.command_line.specs.Paths.{IsTrimmed, IsIn, IsNamed};

/// The path without slashes at its end.
pub(crate) fn without_slashes(path: &str) -> &str
    ensures { IsTrimmed path.now result.now }
{
    path.trim_end_matches('/')
}

/// The folder that contains what a path refers to, and its name there.
pub(crate) fn folder_above(path: &str) -> (&str, &str)
    ensures { IsIn path.now result.0.now result.1.now }
{
    match path.rsplit_once('/') {
        Some((folder, name)) if folder.is_empty() => ("/", name),
        Some((folder, name)) => (folder, name),
        None => (".", path),
    }
}

/// The folder of releases, and the name of one. If the folder is given, the name is `word` without
/// slashes at its end; otherwise `word` is a path, which is split before its last part.
pub(crate) fn folder_and_name<'a>(releases: Option<&'a str>, word: &'a str) -> (&'a str, &'a str)
    ensures { IsNamed (option_map (λ s. s.now) releases.entry) word.now
        result.0.now result.1.now }
{
    let path = without_slashes(word);
    match releases {
        Some(releases) => (releases, path),
        None => folder_above(path),
    }
}
