ghost use Rattle.std.specs.Prelude.{◌≡◌};
ghost use Rattle.words.specs.Register.{register_of};

// A signed result as a register's 64 bits, sign-extended: two's complement, without loss.
pub fn register(x: i64) -> u64
    ensures { result ≡ register_of x }
{
    x.cast_unsigned()
}
