// The forms of nodes, under the names that syn gives them, with document 01's numbers.
ghost use Rattle.std.specs.Prelude.{◌≡◌};
ghost use Rattle.tree.specs.FormNumbers.{number_of, Decodes};

#[derive(Clone, Copy, Debug, PartialEq, Eq)]
pub enum Form {
    ExprArray = 1,
    ExprAssign = 2,
    ExprAsync = 3,
    ExprAwait = 4,
    ExprBinary = 5,
    ExprBlock = 6,
    ExprBreak = 7,
    ExprCall = 8,
    ExprCast = 9,
    ExprClosure = 10,
    ExprConst = 11,
    ExprContinue = 12,
    ExprField = 13,
    ExprForLoop = 14,
    ExprGroup = 15,
    ExprIf = 16,
    ExprIndex = 17,
    ExprInfer = 18,
    ExprLet = 19,
    ExprLit = 20,
    ExprLoop = 21,
    ExprMacro = 22,
    ExprMatch = 23,
    ExprMethodCall = 24,
    ExprParen = 25,
    ExprPath = 26,
    ExprRange = 27,
    ExprRawAddr = 28,
    ExprReference = 29,
    ExprRepeat = 30,
    ExprReturn = 31,
    ExprStruct = 32,
    ExprTry = 33,
    ExprTryBlock = 34,
    ExprTuple = 35,
    ExprUnary = 36,
    ExprUnsafe = 37,
    ExprVerbatim = 38,
    ExprWhile = 39,
    ExprYield = 40,
    TypeArray = 41,
    TypeFnPtr = 42,
    TypeGroup = 43,
    TypeImplTrait = 44,
    TypeInfer = 45,
    TypeMacro = 46,
    TypeNever = 47,
    TypeParen = 48,
    TypePath = 49,
    TypePtr = 50,
    TypeReference = 51,
    TypeSlice = 52,
    TypeTraitObject = 53,
    TypeTuple = 54,
    TypeVerbatim = 55,
    Link = 56,
}

// A number that is no form's.
#[derive(Clone, Copy, Debug, PartialEq, Eq)]
pub struct UnknownForm(pub u16);

impl TryFrom<u16> for Form {
    type Error = UnknownForm;

    ghost try_from_gives = { Decodes };

    fn try_from(number: u16) -> Result<Self, UnknownForm> {
        match number {
            1 => Ok(Form::ExprArray),
            2 => Ok(Form::ExprAssign),
            3 => Ok(Form::ExprAsync),
            4 => Ok(Form::ExprAwait),
            5 => Ok(Form::ExprBinary),
            6 => Ok(Form::ExprBlock),
            7 => Ok(Form::ExprBreak),
            8 => Ok(Form::ExprCall),
            9 => Ok(Form::ExprCast),
            10 => Ok(Form::ExprClosure),
            11 => Ok(Form::ExprConst),
            12 => Ok(Form::ExprContinue),
            13 => Ok(Form::ExprField),
            14 => Ok(Form::ExprForLoop),
            15 => Ok(Form::ExprGroup),
            16 => Ok(Form::ExprIf),
            17 => Ok(Form::ExprIndex),
            18 => Ok(Form::ExprInfer),
            19 => Ok(Form::ExprLet),
            20 => Ok(Form::ExprLit),
            21 => Ok(Form::ExprLoop),
            22 => Ok(Form::ExprMacro),
            23 => Ok(Form::ExprMatch),
            24 => Ok(Form::ExprMethodCall),
            25 => Ok(Form::ExprParen),
            26 => Ok(Form::ExprPath),
            27 => Ok(Form::ExprRange),
            28 => Ok(Form::ExprRawAddr),
            29 => Ok(Form::ExprReference),
            30 => Ok(Form::ExprRepeat),
            31 => Ok(Form::ExprReturn),
            32 => Ok(Form::ExprStruct),
            33 => Ok(Form::ExprTry),
            34 => Ok(Form::ExprTryBlock),
            35 => Ok(Form::ExprTuple),
            36 => Ok(Form::ExprUnary),
            37 => Ok(Form::ExprUnsafe),
            38 => Ok(Form::ExprVerbatim),
            39 => Ok(Form::ExprWhile),
            40 => Ok(Form::ExprYield),
            41 => Ok(Form::TypeArray),
            42 => Ok(Form::TypeFnPtr),
            43 => Ok(Form::TypeGroup),
            44 => Ok(Form::TypeImplTrait),
            45 => Ok(Form::TypeInfer),
            46 => Ok(Form::TypeMacro),
            47 => Ok(Form::TypeNever),
            48 => Ok(Form::TypeParen),
            49 => Ok(Form::TypePath),
            50 => Ok(Form::TypePtr),
            51 => Ok(Form::TypeReference),
            52 => Ok(Form::TypeSlice),
            53 => Ok(Form::TypeTraitObject),
            54 => Ok(Form::TypeTuple),
            55 => Ok(Form::TypeVerbatim),
            56 => Ok(Form::Link),
            _ => Err(UnknownForm(number)),
        }
    }
}

impl Form {
    pub fn number(self) -> u16
        ensures { result ≡ number_of self }
    {
        self as u16
    }
}
