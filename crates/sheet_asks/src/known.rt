//! Calls of JavaScript, of the DOM and of jQuery that give nothing.
ghost use Rattle.std.specs.Prelude.{◌≡◌, flat_map, map, OnOk};
ghost use Rattle.html_tokens.specs.Words.{words};
ghost use Rattle.sheet_asks.specs.Known.{known_calls};
ghost use Rattle.sheet_asks.specs.Names.{is_among, once, with_all};

use crate::name_set::NameSet;
use std::alloc::Global;
use tp_base::NoMemory;

/// Their names, with blanks between them.
pub const KNOWN_CALLS: [&[u8]; 61] = [
    b"AbortController Array ArrayBuffer BigInt Blob Boolean Callbacks CustomEvent DOMParser DOMRect DataView Date",
    b"DateTimeFormat Deferred Error Event EventSource File FileReader Float32Array FocusEvent FormData Headers ImageData",
    b"InputEvent IntersectionObserver KeyboardEvent MessageChannel MouseEvent MutationObserver Number NumberFormat Object",
    b"Path2D PluralRules PointerEvent Promise Proxy RangeError ReferenceError RegExp Request ResizeObserver Response Set",
    b"String Symbol SyntaxError TypeError UIEvent URL URLSearchParams Uint32Array Uint8Array WeakMap WeakSet WebSocket Worker",
    b"XMLHttpRequest",
    b"at charAt charCodeAt codePointAt concat endsWith exec fromCharCode fromCodePoint includes indexOf lastIndexOf",
    b"localeCompare match matchAll normalize padEnd padStart repeat replace search slice split startsWith substr substring",
    b"test toLocaleLowerCase toLocaleUpperCase toLowerCase toString toUpperCase trim trimEnd trimLeft trimRight trimStart",
    b"valueOf",
    b"delete difference entries every fill filter find findIndex findLast findLastIndex flat flatMap forEach from fromEntries",
    b"get has intersection isArray join keys map of pop push reduce reduceRight reverse shift some sort splice subarray",
    b"toReversed toSorted toSpliced union unshift values",
    b"abs acos asin atan atan2 cbrt ceil cos exp floor hypot isFinite isInteger isNaN isSafeInteger log10 log2 max min",
    b"parseFloat parseInt pow random round sign sin sqrt tan toExponential toFixed toPrecision trunc",
    b"UTC formatToParts getDate getDay getFullYear getHours getMilliseconds getMinutes getMonth getSeconds getTime",
    b"getTimezoneOffset getUTCDate getUTCDay getUTCFullYear getUTCHours getUTCMinutes getUTCMonth getUTCSeconds now setDate",
    b"setFullYear setHours setMilliseconds setMinutes setMonth setSeconds setTime toDateString toISOString toLocaleDateString",
    b"toLocaleString toLocaleTimeString toTimeString toUTCString",
    b"apply assign call defineProperties defineProperty freeze getOwnPropertyDescriptor getOwnPropertyDescriptors",
    b"getOwnPropertyNames getOwnPropertySymbols getPrototypeOf hasOwn hasOwnProperty is parse setPrototypeOf stringify",
    b"structuredClone",
    b"abort ajax ajaxComplete ajaxError ajaxPrefilter ajaxSend ajaxSetup ajaxStart ajaxStop ajaxSuccess all allSettled always",
    b"any arrayBuffer blob catch createObjectURL done fail fetch finally formData getAll getAllResponseHeaders getJSON",
    b"getResponseHeader json overrideMimeType param parseJSON parseXML pipe post postMessage promise race readAsArrayBuffer",
    b"readAsDataURL readAsText reject resolve revokeObjectURL send sendBeacon serialize serializeArray setRequestHeader",
    b"statusCode terminate then when",
    b"atob btoa decode decodeURI decodeURIComponent encode encodeURI encodeURIComponent escape escapeSelector getRandomValues",
    b"randomUUID unescape",
    b"cancelAnimationFrame cancelIdleCallback clearImmediate clearInterval clearQueue clearTimeout delay dequeue finish queue",
    b"queueMicrotask requestAnimationFrame requestIdleCallback setImmediate setInterval setTimeout stop",
    b"addEventListener addListener bind blur change click composedPath contextmenu createEvent dblclick delegate die",
    b"disconnect dispatchEvent error focus focusin focusout getModifierState holdReady hover initCustomEvent initEvent",
    b"initKeyboardEvent initMouseEvent isDefaultPrevented isImmediatePropagationStopped isPropagationStopped keydown keypress",
    b"keyup live mousedown mouseenter mouseleave mousemove mouseout mouseover mouseup observe off on one preventDefault proxy",
    b"ready releasePointerCapture removeEventListener removeListener resize scroll select setPointerCapture",
    b"stopImmediatePropagation stopPropagation submit takeRecords trigger triggerHandler unbind undelegate unload unobserve",
    b"$ addBack andSelf children closest contains contents createTreeWalker each elementFromPoint elementsFromPoint end eq",
    b"evaluate even first getAttribute getAttributeNS getAttributeNames getElementById getElementsByClassName",
    b"getElementsByName getElementsByTagName getElementsByTagNameNS getRootNode grep hasAttribute hasAttributes hasChildNodes",
    b"hasClass hasData hasFocus inArray index isEqualNode isSameNode item jQuery last makeArray matches merge namedItem next",
    b"nextAll nextNode nextUntil not odd offsetParent parent parents parentsUntil prev prevAll prevUntil querySelector",
    b"querySelectorAll siblings size toArray unique uniqueSort",
    b"createAttribute createComment createDocumentFragment createTextNode data deleteCell deleteContents deleteRow deleteTFoot",
    b"deleteTHead detach empty insertAdjacentText remove removeAttr removeAttribute removeAttributeNS removeChild removeClass",
    b"removeData removeProp splitText text",
    b"css deleteRule fadeIn fadeOut fadeTo fadeToggle getBBox getBoundingClientRect getCTM getClientRects getComputedStyle",
    b"getPropertyValue getScreenCTM height hide innerHeight innerWidth insertRule matchMedia offset outerHeight outerWidth",
    b"position removeProperty scrollBy scrollIntoView scrollIntoViewIfNeeded scrollLeft scrollTo scrollTop setProperty show",
    b"slideDown slideToggle slideUp supports toggle width",
    b"addRange canPlayType checkValidity cloneRange collapseToEnd collapseToStart createRange exitFullscreen getRangeAt",
    b"getSelection hidePopover pause play removeAllRanges removeRange reportValidity requestFullscreen requestSubmit reset",
    b"selectNode selectNodeContents setCustomValidity setEnd setEndAfter setEndBefore setRangeText setSelectionRange setStart",
    b"setStartAfter setStartBefore showModal showPicker showPopover stepDown stepUp togglePopover",
    b"alert back clearData confirm forward getData getItem key moveTo print prompt pushState readText reload removeItem",
    b"replaceState requestPermission setDragImage setItem writeText",
    b"addColorStop arc arcTo beginPath bezierCurveTo clearRect clip closePath createImageData createLinearGradient",
    b"createPattern createRadialGradient drawImage fillRect fillText getContext getImageData lineTo measureText putImageData",
    b"quadraticCurveTo resetTransform setLineDash setTransform stroke strokeRect strokeText toBlob toDataURL",
    b"assert debug dir groupCollapsed groupEnd log time timeEnd warn",
    b"extend isEmptyObject isFunction isNumeric isPlainObject isWindow isXMLDoc noConflict noop type",
];

/// The calls that give nothing. It is made once, in time linear in their names, and is asked for each call of a script.
#[derive(Drop)]
pub struct KnownCalls {
    names: NameSet<'static>,
    ghost whole: { names ≡ once known_calls },
}

impl KnownCalls {
    /// All of them.
    #[tactic(auto, using(crate::proofs::KnownSteps::same_texts))]
    pub fn new(alloc: Global) -> Result<Self, NoMemory> {
        let mut names = NameSet::new(alloc);
        put_texts(&mut names, &KNOWN_CALLS)?;
        Ok(KnownCalls { names })
    }

    /// Whether a call of this name gives nothing. Linear in the name, on average.
    #[tactic(auto, using(crate::proofs::SetSteps::among_once))]
    pub fn has(&self, name: &[u8]) -> bool
        ensures { result ≡ is_among known_calls name.now }
    {
        self.names.has(name)
    }
}

// Adds the words of all these texts.
fn put_texts<'t>(names: &mut NameSet<'t>, texts: &[&'t [u8]]) -> Result<(), NoMemory>
    ensures { OnOk result (names.new ≡ with_all names.old (flat_map words (map (λ t. t.now) texts.now))) }
{
    let mut left = texts;
    'texts: while let [first, others @ ..] = left {
        names.put_words(first)?;
        left = others;
    }
    Ok(())
}
