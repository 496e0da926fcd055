// Strings of letters, and lists of them.

// The number of the string in the list.
pub fn find(list: &[&[u8]], s: &[u8]) -> Option<usize> {
    list.iter().position(|t| *t == s)
}

// The longest suffix that is in the list.
pub fn longest_suffix<'a>(list: &[&[u8]], s: &'a [u8]) -> Option<&'a [u8]> {
    for start in 0..=s.len() {
        let suffix = &s[start..];
        if find(list, suffix).is_some() {
            return Some(suffix);
        }
    }
    None
}

// How many of the list are suffixes.
pub fn how_many_end(list: &[&[u8]], s: &[u8]) -> usize {
    list.iter().filter(|t| s.ends_with(t)).count()
}
