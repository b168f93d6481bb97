ghost use Rattle.std.specs.Prelude.{◌≡◌};
ghost use Rattle.rnv_package_json.specs.Roles.{standing, named, is_place, is_clean_byte, is_clean};

// What a value is to the finds.
#[derive(Clone, Copy)]
pub enum Role<'a> {
    // The file's object.
    Top,
    // The value of the top member with that name, which is a place.
    Place(&'a str),
    // The value of a place's member: the place and the member's name.
    Entry(&'a str, &'a str),
    Other,
}

fn is_place(name: &str) -> bool
    ensures { result ≡ is_place name.now }
{
    name == "dependencies"
        || name == "devDependencies"
        || name == "optionalDependencies"
        || name == "peerDependencies"
}

fn is_clean_byte(x: u8) -> bool
    ensures { result ≡ is_clean_byte x }
{
    x >= b' ' && x != b'\\' && x != 127
}

// No control character and no backslash.
pub fn is_clean(text: &str) -> bool
    ensures { result ≡ is_clean text.now }
{
    text.as_bytes().iter().all(|x| is_clean_byte(*x))
}

// The role of the member of that name.
pub fn named<'a>(role: Role<'a>, name: &'a str) -> Role<'a>
    ensures { standing result ≡ named (standing role.entry) name.now }
{
    match role {
        Role::Top if is_place(name) => Role::Place(name),
        Role::Place(place) => Role::Entry(place, name),
        _ => Role::Other,
    }
}
