// A hasher that is known by its name alone, made a type.
use hashing::fnv1a::Fnv1a;
use hashing::hasher::Hasher;
use hashing::named::HasherName;
use hashing::rotating::Rotating;

// What can be done under any hasher.
pub trait UnderHasher {
    type Output;

    fn run<H: Hasher>(self) -> Self::Output;
}

pub fn under_hasher<J: UnderHasher>(name: HasherName, job: J) -> J::Output {
    // Kept: the one switch, since which hasher is wanted is known when the program runs.
    match name {
        HasherName::Rotating => job.run::<Rotating>(),
        HasherName::Fnv1a => job.run::<Fnv1a>(),
    }
}
